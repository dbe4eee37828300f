// The top call for plain commands.
ghost use Rattle.host_words.specs.Options.{words_texts};
ghost use Rattle.plain_commands.specs.Plain.{RanPlainly};

use host_catalogue::{CommandEnd, end_command};
use host_replay::{run_export, run_recover, run_replay, run_settle};
use host_tiny::run_tiny;
use host_words::{CommandName, command_of};
use rail_io::{Shelf, Sink, Source};
use std::alloc::Global;

/// Runs the plain command that the first word names, and answers its status: `tiny`, `replay` or `export` over one
/// connection, or `settle` or `recover`, which read no input. Other words are refused. A failing note changes no
/// status.
///
/// What each command does is one record of `specs/Plain`: its status and its note, the bytes that it wrote, which
/// device failed, and what the shelf lacked.
pub fn run_plain<F: Shelf, S: Source, K: Sink, E: Sink>(
    alloc: Global,
    words: &[String],
    shelf: &mut F,
    input: &mut S,
    output: &mut K,
    notes: &mut E,
) -> u8
    ensures { RanPlainly (words_texts words.now) result (record {
      shelf = record {
        told = F.told;
        faults = F.faults;
        misses = F.misses;
        old = shelf.old;
        new = shelf.new;
      };
      input = record { told = S.told; faults = S.faults; old = input.old; new = input.new };
      output = record { told = K.told; faults = K.faults; old = output.old; new = output.new };
      notes = record { told = E.told; faults = E.faults; old = notes.old; new = notes.new };
    }) }
{
    match command_of(words) {
        Some(CommandName::Tiny) => run_tiny(alloc, words, input, output, notes),
        Some(CommandName::Replay) => run_replay(alloc, words, shelf, input, output, notes),
        Some(CommandName::Export) => run_export(alloc, words, shelf, input, output, notes),
        Some(CommandName::Settle) => run_settle(alloc, words, shelf, output, notes),
        Some(CommandName::Recover) => run_recover(alloc, words, shelf, output, notes),
        Some(CommandName::Drill | CommandName::Serve) | None => {
            end_command(notes, &CommandEnd::WordsRefused)
        }
    }
}
