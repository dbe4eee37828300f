// A command's words by `clap`.
ghost use Rattle.std.specs.Prelude.{◌≡◌, ◌<◌, Some, None, true, false, codes, IfOk, IfErr, option_and_then};
ghost use Rattle.clap.specs.Words.{app_of, found_of, is_simple_and_free, one_text, rows_of, rule_of};
ghost use Rattle.host_words.specs.Options.{number_in, option_rule, matched, words_texts};

use crate::fault::WordsFault;
use clap::error::ErrorKind;
use clap::{Arg, ArgMatches, Command};
use std::alloc::Global;

/// `--from EXPORT`, which may be left out.
pub fn from_option<'a>(alloc: Global) -> Arg<'a>
    ensures rule { rule_of result ≡ option_rule (codes "from") }
    ensures local { result.global ≡ false }
{
    Arg::new(alloc, "from").long("from")
}

/// What the command takes of the words, of which the first is its name.
pub fn matches_of<'a>(
    command: Command<'a>,
    words: &'a [String],
) -> Result<ArgMatches<'a>, WordsFault>
    requires { is_simple_and_free (app_of command) ≡ true }
    ensures ok { IfOk result (λ m. matched (app_of command.entry) (words_texts words.now)
        ≡ Some (rows_of (found_of m))) }
    ensures refused { IfErr result (λ e. e ≡ WordsFault.Refused
        → matched (app_of command.entry) (words_texts words.now) ≡ None) }
{
    match command.try_get_matches_from(words) {
        Ok(matches) => Ok(matches),
        Err(error) if error.kind() == ErrorKind::OutOfMemory => Err(WordsFault::NoMemory),
        Err(_) => Err(WordsFault::Refused),
    }
}

/// The number of an option, if it lies from `least` to `most`.
pub fn number_of(matches: &ArgMatches<'_>, name: &str, least: u32, most: u32) -> Option<u32>
    ensures { result ≡ option_and_then (number_in least most) (one_text (found_of matches.now) name.now) }
{
    let number = matches.get_one::<u32>(name)?;
    if least <= number && number <= most {
        Some(number)
    } else {
        None
    }
}
