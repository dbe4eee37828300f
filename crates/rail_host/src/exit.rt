// How the program ends.
ghost use Rattle.std.specs.Prelude.{◌≡◌, Option, None, IfOk, IfErr, replicate};
ghost use Rattle.std.specs.Process.{exit_status};
ghost use Rattle.claim_rule.specs.Walls.{WallView};
ghost use Rattle.host_words.specs.Limits.{clock_count};
ghost use Rattle.host_words.specs.Options.{words_texts};
ghost use Rattle.host_catalogue.specs.Ends.{note_of, status_of};
ghost use Rattle.host_catalogue.specs.Noted.{TakesNote};
ghost use Rattle.host_catalogue.specs.declared.ending.CommandEnd.TheVariants.{NoMemory};
ghost use Rattle.host_serve.specs.Turns.{Asks};
ghost use Rattle.host_serve.specs.Serve.{left_by, some_count};
ghost use Rattle.rail_host.specs.Commands.{Ran};

use crate::devices::{Devices, ForServe};
use crate::program::run_command;
use host_catalogue::{CommandEnd, end_command};
use rail_io::{Bell, Journal, Shelf, Sink, Source, Ticker};
use rail_service::Listener;
use std::alloc::{AllocError, Global};
use std::process::ExitCode;
use std::sync::Wait;
use std::thread::Threads;
use std::time;

/// Runs the command of the words on these devices, and ends with its status; or, where there was no memory for the
/// words, with status 5 and its note.
pub fn run_host<
    'g,
    R: Threads + Wait + Sync + time::Clock,
    F: Shelf,
    S: Source,
    K: Sink,
    E: Sink,
    L: Listener + Drop + Send,
    T: Ticker + Drop + Send,
    J: Journal + Drop + Send,
    B: Bell + Drop + Send,
>(
    rt: &'g R,
    alloc: Global,
    words: Result<Vec<String>, AllocError>,
    devices: &mut Devices<F, S, K, E>,
    given: ForServe<'g, L, T, J, B>,
) -> ExitCode
where
    L::Input: Send,
    L::Output: Send,
    requires fresh { (L.told given.listener).handed ≡ 0 }

    // The command of the words ran so on these devices, and the program's status is that of its end. What is left of
    // the listener and the wall goes with the program.
    ensures ran { IfOk words (λ said. (last : L) × (wall : Option WallView) × Ran (words_texts said.items)
        (record
        (left_by L.told L.faults L.becomes L.hands (replicate clock_count None) (Asks T.ticked given.entry.ticker)
        given.entry.listener last wall)
        { watchers = some_count given.entry.findings })
        (J.told given.entry.keeping.journal)
        (exit_status result)
        (record {
          shelf = record {
            told = F.told;
            faults = F.faults;
            misses = F.misses;
            old = devices.old.shelf;
            new = devices.new.shelf;
          };
          input = record { told = S.told; faults = S.faults; old = devices.old.input; new = devices.new.input };
          output = record { told = K.told; faults = K.faults; old = devices.old.output; new = devices.new.output };
          notes = record { told = E.told; faults = E.faults; old = devices.old.notes; new = devices.new.notes };
        })) }

    // Without words nothing is touched but the notes.
    ensures no_words { IfErr words (λ _. exit_status result ≡ status_of NoMemory) }
    ensures note { IfErr words (λ _. TakesNote E.told E.faults devices.old.notes devices.new.notes (note_of NoMemory)) }
    ensures unfetched { IfErr words (λ _. devices.new.shelf ≡ devices.old.shelf) }
    ensures unread { IfErr words (λ _. devices.new.input ≡ devices.old.input) }
    ensures unwritten { IfErr words (λ _. devices.new.output ≡ devices.old.output) }
{
    match words {
        Ok(words) => {
            let end = run_command(rt, alloc, &words, devices, given);
            ExitCode::from(end.status)
        }
        Err(_) => ExitCode::from(end_command(&mut devices.notes, &CommandEnd::NoMemory)),
    }
}
