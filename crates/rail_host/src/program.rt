// The command of the first word.
ghost use Rattle.std.specs.Prelude.{◌≡◌, ◌⊎◌, None, replicate};
ghost use Rattle.host_words.specs.Limits.{clock_count};
ghost use Rattle.host_words.specs.Options.{words_texts};
ghost use Rattle.host_serve.specs.Serve.{IsForServe, left_by, some_count};
ghost use Rattle.host_serve.specs.Turns.{Asks};
ghost use Rattle.rail_host.specs.Commands.{IsNoCommand, Ran};
ghost use Rattle.plain_commands.specs.Plain.{RanPlainly};

use crate::devices::{Devices, ForServe};
use crate::serve::serve_port;
use host_drill::{DrillEnd, run_drill};
use host_journal::ServeEnd;
use host_words::{CommandName, command_of};
use plain_commands::run_plain;
use rail_io::{Bell, Journal, Shelf, Sink, Source, Ticker};
use rail_service::Listener;
use std::alloc::Global;
use std::sync::Wait;
use std::thread::Threads;
use std::time;

/// Runs the plain command of the words, and hands back its status and the listener as it was.
fn plain_end<F: Shelf, S: Source, K: Sink, E: Sink, L>(
    alloc: Global,
    words: &[String],
    devices: &mut Devices<F, S, K, E>,
    listener: L,
) -> ServeEnd<L>
    ensures ran { RanPlainly (words_texts words.now) result.status (record {
      shelf = record {
        told = F.told;
        faults = F.faults;
        misses = F.misses;
        old = devices.old.shelf;
        new = devices.new.shelf;
      };
      input = record { told = S.told; faults = S.faults; old = devices.old.input; new = devices.new.input };
      output = record { told = K.told; faults = K.faults; old = devices.old.output; new = devices.new.output };
      notes = record { told = E.told; faults = E.faults; old = devices.old.notes; new = devices.new.notes };
    }) }
    ensures listener { result.listener ≡ listener }
    ensures wall { result.wall ≡ None }
{
    ServeEnd {
        status: run_plain(
            alloc,
            words,
            &mut devices.shelf,
            &mut devices.input,
            &mut devices.output,
            &mut devices.notes,
        ),
        listener,
        wall: None,
    }
}

/// Runs the command that the first word names, and hands back its status and the listener: `drill`, `serve`, or one of
/// the plain commands, to which all other words go. `serve` alone hears of the listener. It and `drill` alone have
/// finished books to hand back.
pub fn run_command<
    'g,
    R: Threads + Wait + Sync + time::Clock,
    F: Shelf,
    S: Source,
    K: Sink,
    E: Sink,
    L: Listener + Drop + Send,
    T: Ticker + Drop + Send,
    J: Journal + Drop + Send,
    B: Bell + Drop + Send,
>(
    rt: &'g R,
    alloc: Global,
    words: &[String],
    devices: &mut Devices<F, S, K, E>,
    given: ForServe<'g, L, T, J, B>,
) -> ServeEnd<L>
where
    L::Input: Send,
    L::Output: Send,
    requires fresh { (L.told given.listener).handed ≡ 0 }

    // The command of the words ran so on these devices. One record for each says its status and note, what it read and
    // wrote, which device failed, and what it left as it was.
    ensures ran { Ran (words_texts words.now)
        (record
        (left_by L.told L.faults L.becomes L.hands (replicate clock_count None) (Asks T.ticked given.entry.ticker)
        given.entry.listener result.listener result.wall)
        { watchers = some_count given.entry.findings })
        (J.told given.entry.keeping.journal)
        result.status
        (record {
          shelf = record {
            told = F.told;
            faults = F.faults;
            misses = F.misses;
            old = devices.old.shelf;
            new = devices.new.shelf;
          };
          input = record { told = S.told; faults = S.faults; old = devices.old.input; new = devices.new.input };
          output = record { told = K.told; faults = K.faults; old = devices.old.output; new = devices.new.output };
          notes = record { told = E.told; faults = E.faults; old = devices.old.notes; new = devices.new.notes };
        }) }

    // Status 2 comes exactly where the words are those of no command, unless there was no memory to read them.
    ensures words { result.status ≡ 2 → IsNoCommand (words_texts words.now) }
    ensures refused_words { IsNoCommand (words_texts words.now) → (result.status ≡ 2) ⊎ (result.status ≡ 5) }

    // Only `serve` hears of the listener, and not where its words are refused.
    ensures unheard { (IsForServe (words_texts words.now) → ⊥) → result.listener ≡ given.entry.listener }
    ensures nothing_heard { result.status ≡ 2 → result.listener ≡ given.entry.listener }
{
    match command_of(words) {
        Some(command) => match command {
            CommandName::Serve => serve_port(rt, alloc, words, devices, given),
            CommandName::Drill => {
                let DrillEnd { status, wall } = run_drill(
                    rt,
                    alloc,
                    words,
                    &mut devices.output,
                    &mut devices.notes,
                );
                ServeEnd {
                    status,
                    listener: given.listener,
                    wall,
                }
            }
            _ => plain_end(alloc, words, devices, given.listener),
        },
        None => plain_end(alloc, words, devices, given.listener),
    }
}
