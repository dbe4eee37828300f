// The address to listen at, in the words of `serve`.
ghost use Rattle.std.specs.Prelude.{◌≡◌, IfOk, IfErr, codes, option_map};
ghost use Rattle.clap.specs.Words.{found_of, rows_of, first_of};
ghost use Rattle.host_words.specs.Address.{address_text, IsAddress, IsNoAddress};
ghost use Rattle.host_words.specs.Options.{words_texts};

use crate::fault::WordsFault;
use crate::options::matches_of;
use crate::serve::serve_command;
use clap::ArgMatches;
use std::alloc::Global;
use std::net::IpAddr;

// The address that stands for the word, or none without a word.
fn address_of(text: Option<&str>) -> Result<Option<IpAddr>, WordsFault>
    ensures ok { IfOk result (IsAddress (option_map (λ t. t.now) text.entry)) }
    ensures refused { IfErr result (λ e. (e ≡ WordsFault.Refused) × IsNoAddress (option_map (λ t. t.now) text.entry)) }
{
    let Some(text) = text else {
        return Ok(None);
    };
    match text.parse::<IpAddr>() {
        Ok(address) => Ok(Some(address)),
        Err(_) => Err(WordsFault::Refused),
    }
}

// The address of these values.
fn address_in(matches: &ArgMatches<'_>) -> Result<Option<IpAddr>, WordsFault>
    ensures ok { IfOk result (IsAddress (first_of (codes "address") (rows_of (found_of matches.now)))) }
    ensures refused { IfErr result (λ e. (e ≡ WordsFault.Refused)
        × IsNoAddress (first_of (codes "address") (rows_of (found_of matches.now)))) }
{
    address_of(matches.get_str("address"))
}

/// The address to listen at that words say, of which the first is `serve` itself: an IPv4 or an IPv6 address. None
/// where they say none, or are refused for another word than that.
pub fn read_address(alloc: Global, words: &[String]) -> Result<Option<IpAddr>, WordsFault>
    ensures ok { IfOk result (IsAddress (address_text (words_texts words.now))) }
    ensures refused { IfErr result (λ e. e ≡ WordsFault.Refused → IsNoAddress (address_text (words_texts words.now))) }
{
    match matches_of(serve_command(alloc)?, words) {
        Ok(matches) => address_in(&matches),
        Err(WordsFault::NoMemory) => Err(WordsFault::NoMemory),
        Err(WordsFault::Refused) => Ok(None),
    }
}
