// `serve` by the system's clock.
ghost use Rattle.std.specs.Prelude.{◌≡◌, None, IfOk, length, replicate};
ghost use Rattle.host_words.specs.Limits.{clock_count};
ghost use Rattle.host_words.specs.Options.{words_texts};
ghost use Rattle.host_serve.specs.Serve.{left_by, some_count};
ghost use Rattle.host_serve.specs.Turns.{Asks};
ghost use Rattle.host_serve.specs.Kept.{IsNotSaid};
ghost use Rattle.rail_host.specs.Commands.{EndsServing};

use crate::devices::{Devices, ForServe};
use host_catalogue::{CommandEnd, end_command};
use host_journal::ServeEnd;
use host_serve::{CLOCKS, Devices as ServeDevices, serve_kept};
use host_window::{Counters, CountingClock, Findings};
use rail_io::{Bell, Journal, Shelf, Sink, Source, Ticker};
use rail_service::Listener;
use std::alloc::{AllocError, Global};
use std::sync::Wait;
use std::thread::Threads;
use std::time;

/// The clock by which a member serves: the system's, whose commands are counted.
type ServeClock<'c, C> = CountingClock<'c, C>;

/// Clocks that read this one, as many as serving takes. Their commands are counted, where there are counters.
fn system_clocks<'c, C: time::Clock + Copy + Drop>(
    clock: C,
    alloc: Global,
    counters: Option<&'c Counters>,
) -> Result<Vec<ServeClock<'c, C>>, AllocError>
    ensures { IfOk result (λ clocks. length clocks.items ≡ clock_count) }
{
    let mut clocks = Vec::new(alloc);
    for number in 0..CLOCKS {
        let counts = match counters {
            Some(counters) => counters.route_counts(usize::from(number)),
            None => None,
        };
        clocks.push(CountingClock::of(clock, counts))?;
    }
    Ok(clocks)
}

/// What is told of the books, where there are counters.
fn findings_of(counters: Option<&Counters>) -> Option<&Findings>
    ensures { some_count result ≡ some_count counters.entry }
{
    let counters = counters?;
    Some(&counters.findings)
}

/// Serves the connections that a listener hands out, by clocks that tell nothing, which are to be the system's. It
/// hands back the status of `serve`, the listener and the wall, with the export and the note in the notes. It leaves
/// the input and the output as they were.
///
/// The program's listener stands before a port of this machine, and its streams tell no content: that a connection's
/// bytes came from a client, and reached one, is said by no clause.
pub fn serve_port<
    'g,
    R: Threads + Wait + Sync + time::Clock,
    F: Shelf,
    S: Source,
    K: Sink,
    E: Sink,
    L: Listener + Drop + Send,
    T: Ticker + Drop + Send,
    J: Journal + Drop + Send,
    B: Bell + Drop + Send,
>(
    rt: &'g R,
    alloc: Global,
    words: &[String],
    devices: &mut Devices<F, S, K, E>,
    given: ForServe<'g, L, T, J, B>,
) -> ServeEnd<L>
where
    L::Input: Send,
    L::Output: Send,
    requires fresh { (L.told given.listener).handed ≡ 0 }

    // The command ran so over this listener, by this ticker and clocks that tell nothing, and with this journal where
    // its words name one. Where they are refused, the listener isn't called.
    ensures ended { EndsServing (words_texts words.now)
        (record
        (left_by L.told L.faults L.becomes L.hands (replicate clock_count None) (Asks T.ticked given.entry.ticker)
        given.entry.listener result.listener result.wall)
        { watchers = some_count given.entry.counters })
        (J.told given.entry.keeping.journal)
        result.status
        (record {
          shelf = record {
            told = F.told;
            faults = F.faults;
            misses = F.misses;
            old = devices.old.shelf;
            new = devices.new.shelf;
          };
          input = record { told = S.told; faults = S.faults; old = devices.old.input; new = devices.new.input };
          output = record { told = K.told; faults = K.faults; old = devices.old.output; new = devices.new.output };
          notes = record { told = E.told; faults = E.faults; old = devices.old.notes; new = devices.new.notes };
        }) }
    ensures refused { result.status ≡ 2 → IsNotSaid (words_texts words.now) }
    ensures nothing_heard { result.status ≡ 2 → result.listener ≡ given.entry.listener }
{
    let Ok(clocks) = system_clocks(rt, alloc, given.counters) else {
        return ServeEnd {
            status: end_command(&mut devices.notes, &CommandEnd::NoMemory),
            listener: given.listener,
            wall: None,
        };
    };
    let of_serve = ServeDevices {
        listener: given.listener,
        ticker: given.ticker,
        clocks,
        findings: findings_of(given.counters),
    };
    serve_kept(
        rt,
        alloc,
        words,
        &mut devices.shelf,
        of_serve,
        Some(given.keeping),
        &mut devices.notes,
    )
}
