// What `main` itself does by the words of `serve`.
ghost use Rattle.std.specs.Prelude.{◌≡◌, IfErr, IfOk, None};
ghost use Rattle.host_io.specs.Tcp.{IsLocal};
ghost use Rattle.host_words.specs.Options.{words_texts};
ghost use Rattle.host_io.specs.Asked.{IsAskedAddress, IsNotAsked, IsSaid, IsAskedWindow};

use crate::window::{Window, asked_window};
use host_catalogue::CommandEnd;
use host_words::{CommandName, WordsFault, is_for, read_address};
use std::alloc::{AllocError, Global};
use std::net::{IpAddr, Ipv4Addr};

/// What words ask `main` for.
#[derive(Drop)]
pub struct Asked {
    /// The address to listen at.
    pub address: IpAddr,
    /// The window, where they ask for one.
    pub window: Option<Window>,
}

// The address that is said, and this machine's own where none is.
fn said_or_own(said: Option<IpAddr>) -> IpAddr
    ensures { IsSaid said result }
{
    match said {
        Some(address) => address,
        None => IpAddr::V4(Ipv4Addr::LOCALHOST),
    }
}

/// The address that the words say, and this machine's own where they say none. Or how the command ends.
fn asked_address(alloc: Global, words: &[String]) -> Result<IpAddr, CommandEnd>
    ensures address { IfOk result (IsAskedAddress (words_texts words.now)) }
    ensures refused { IfErr result (IsNotAsked (words_texts words.now)) }
{
    if !is_for(words, CommandName::Serve) {
        return Ok(said_or_own(None));
    }
    match read_address(alloc, words) {
        Ok(said) => Ok(said_or_own(said)),
        Err(WordsFault::Refused) => Err(CommandEnd::WordsRefused),
        Err(WordsFault::NoMemory) => Err(CommandEnd::NoMemory),
    }
}

/// What the words ask for, where there are words; or how the command ends at once.
pub fn asked_of(alloc: Global, words: &Result<Vec<String>, AllocError>) -> Result<Asked, CommandEnd>
    ensures address { IfOk words.now (λ given. IfOk result (λ asked.
        IsAskedAddress (words_texts given.items) asked.address)) }
    ensures window { IfOk words.now (λ given. IfOk result (λ asked.
        IsAskedWindow (words_texts given.items) asked.window)) }
    ensures refused { IfOk words.now (λ given. IfErr result (IsNotAsked (words_texts given.items))) }
    ensures nothing { IfErr words.now (λ _. IfOk result (λ asked.
        IsLocal asked.address × (asked.window ≡ None))) }
{
    let Ok(words) = words else {
        return Ok(Asked {
            address: said_or_own(None),
            window: None,
        });
    };
    let address = asked_address(alloc, words)?;
    match asked_window(alloc, words) {
        Ok(window) => Ok(Asked { address, window }),
        Err(AllocError) => Err(CommandEnd::NoMemory),
    }
}
