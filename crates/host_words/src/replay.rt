// The words of `replay`, and of `export`, which takes the same.
ghost use Rattle.std.specs.Prelude.{◌≡◌, Some, None, IfOk, IfErr};
ghost use Rattle.clap.specs.Words.{app_of};
ghost use Rattle.host_words.specs.Options.{words_texts};
ghost use Rattle.host_words.specs.Replay.{export_words, input_app, input_words, replay_words};
ghost use Rattle.host_words.specs.Said.{view_of};

use crate::fault::WordsFault;
use crate::options::{from_option, matches_of, number_of};
use clap::{Arg, Command};
use rail_time::{Moment, read_moment};
use std::alloc::{AllocError, Global};

/// What the words of `replay` or of `export` say.
#[derive(Clone, Copy)]
pub struct ReplayWords<'a> {
    /// The name of the catalogue's file.
    pub catalogue: &'a str,
    /// The name of the export that the books open with. None: they open with no booking.
    pub from: Option<&'a str>,
    /// The first reading of the clock.
    pub start: Moment,
    /// The seconds from one reading of the clock to the next, at most 86,400.
    pub tick: u32,
}

fn input_command<'a>(alloc: Global, name: &'a str) -> Result<Command<'a>, AllocError>
    ensures { IfOk result (λ command. app_of command ≡ input_app name.entry.now) }
{
    let catalogue = Arg::new(alloc, "catalogue").required(true);
    let start = Arg::new(alloc, "start")
        .long("start")
        .default_value("1970-01-01T00:00:00Z");
    let tick = Arg::new(alloc, "tick")
        .long("tick")
        .value_parser(clap::value_parser!(u32).range(0..=86_400))
        .default_value("0");
    Command::new(alloc, name)
        .arg(catalogue)?
        .arg(start)?
        .arg(tick)?
        .arg(from_option(alloc))
}

/// What the words say of a command of this name, which is the first of them.
fn read_input<'a>(
    alloc: Global,
    name: &'a str,
    words: &'a [String],
) -> Result<ReplayWords<'a>, WordsFault>
    ensures ok { IfOk result (λ said. input_words name.now (words_texts words.now) ≡ Some (view_of said)) }
    ensures refused { IfErr result (λ e. e ≡ WordsFault.Refused → input_words name.now (words_texts words.now) ≡ None) }
{
    let matches = matches_of(input_command(alloc, name)?, words)?;
    let Some(catalogue) = matches.get_str("catalogue") else {
        return Err(WordsFault::Refused);
    };
    let Some(start) = matches.get_str("start") else {
        return Err(WordsFault::Refused);
    };
    let Ok(start) = read_moment(alloc, start) else {
        return Err(WordsFault::Refused);
    };
    let Some(tick) = number_of(&matches, "tick", 0, 86_400) else {
        return Err(WordsFault::Refused);
    };
    Ok(ReplayWords {
        catalogue,
        from: matches.get_str("from"),
        start,
        tick,
    })
}

/// What the words say, of which the first is `replay` itself.
pub fn read_replay<'a>(alloc: Global, words: &'a [String]) -> Result<ReplayWords<'a>, WordsFault>
    ensures ok { IfOk result (λ said. replay_words (words_texts words.now) ≡ Some (view_of said)) }
    ensures refused { IfErr result (λ e. e ≡ WordsFault.Refused → replay_words (words_texts words.now) ≡ None) }
{
    read_input(alloc, "replay", words)
}

/// What the words say, of which the first is `export` itself.
pub fn read_export<'a>(alloc: Global, words: &'a [String]) -> Result<ReplayWords<'a>, WordsFault>
    ensures ok { IfOk result (λ said. export_words (words_texts words.now) ≡ Some (view_of said)) }
    ensures refused { IfErr result (λ e. e ≡ WordsFault.Refused → export_words (words_texts words.now) ≡ None) }
{
    read_input(alloc, "export", words)
}
