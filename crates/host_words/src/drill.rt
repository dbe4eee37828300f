// The words of `drill`.
ghost use Rattle.std.specs.Prelude.{◌≡◌, ◌≤◌, false, Some, None, IfOk, IfErr, IfSome, option_and_then};
ghost use Rattle.clap.specs.Words.{app_of, found_of, one_text, rule_of};
ghost use Rattle.host_words.specs.Options.{number_in, option_rule, required, words_texts};
ghost use Rattle.host_words.specs.Drill.{drill_app, drill_words, parsed_by};

use crate::fault::WordsFault;
use crate::options::{matches_of, number_of};
use clap::builder::ValueParser;
use clap::{Arg, ArgMatches, Command};
use std::alloc::{AllocError, Global};

/// What the words of `drill` say.
#[derive(Clone, Copy)]
pub struct DrillWords {
    /// From what number the requests are made, at most 65,535.
    pub seed: u32,
    /// How many connections there are: 1 to 16.
    pub workers: u32,
    /// How many requests each connection makes: 1 to 2,000.
    pub size: u32,
    /// How many places there are: 1 to 1,200.
    pub places: u32,
}

// The required option of this name, whose values the parser takes.
fn required_option<'a>(alloc: Global, name: &'a str, parser: ValueParser<'a>) -> Arg<'a>
    ensures rule { rule_of result ≡ required (parsed_by parser.entry (option_rule name.entry.now)) }
    ensures local { result.global ≡ false }
{
    Arg::new(alloc, name)
        .long(name)
        .value_parser(parser)
        .required(true)
}

fn drill_command<'a>(alloc: Global) -> Result<Command<'a>, AllocError>
    ensures { IfOk result (λ command. app_of command ≡ drill_app) }
{
    let number = clap::value_parser!(u32).range(0..=65_535);
    let seed = required_option(alloc, "seed", number);
    let number = clap::value_parser!(u32).range(1..=16);
    let workers = required_option(alloc, "workers", number);
    let number = clap::value_parser!(u32).range(1..=2_000);
    let size = required_option(alloc, "size", number);
    let number = clap::value_parser!(u32).range(1..=1_200);
    let places = required_option(alloc, "places", number);
    Command::new(alloc, "drill")
        .arg(seed)?
        .arg(workers)?
        .arg(size)?
        .arg(places)
}

/// The number of an option, if it lies from `least` to `most`.
fn number_between(matches: &ArgMatches<'_>, name: &str, least: u32, most: u32) -> Option<u32>
    ensures value { result ≡ option_and_then (number_in least most) (one_text (found_of matches.now) name.now) }
    ensures within { IfSome result (λ n. (least ≤ n) × (n ≤ most)) }
{
    number_of(matches, name, least, most)
}

/// What the words say, of which the first is `drill` itself.
pub fn read_drill(alloc: Global, words: &[String]) -> Result<DrillWords, WordsFault>
    ensures ok { IfOk result (λ said. drill_words (words_texts words.now) ≡ Some said) }
    ensures refused { IfErr result (λ e. e ≡ WordsFault.Refused → drill_words (words_texts words.now) ≡ None) }
    ensures seed { IfOk result (λ said. said.seed ≤ 65_535) }
    ensures workers { IfOk result (λ said. (1 ≤ said.workers) × (said.workers ≤ 16)) }
    ensures size { IfOk result (λ said. (1 ≤ said.size) × (said.size ≤ 2_000)) }
    ensures places { IfOk result (λ said. (1 ≤ said.places) × (said.places ≤ 1_200)) }
{
    let matches = matches_of(drill_command(alloc)?, words)?;
    let Some(seed) = number_between(&matches, "seed", 0, 65_535) else {
        return Err(WordsFault::Refused);
    };
    let Some(workers) = number_between(&matches, "workers", 1, 16) else {
        return Err(WordsFault::Refused);
    };
    let Some(size) = number_between(&matches, "size", 1, 2_000) else {
        return Err(WordsFault::Refused);
    };
    let Some(places) = number_between(&matches, "places", 1, 1_200) else {
        return Err(WordsFault::Refused);
    };
    Ok(DrillWords {
        seed,
        workers,
        size,
        places,
    })
}
