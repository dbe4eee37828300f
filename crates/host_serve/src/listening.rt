// Opened books, served at a port.
ghost use Rattle.std.specs.Prelude.{◌≡◌, ◌≤◌, length};
ghost use Rattle.cold_store.specs.Tidy.{AreSucceeded};
ghost use Rattle.host_words.specs.Limits.{clock_count};
ghost use Rattle.host_words.specs.Serve.{IsInRange};
ghost use Rattle.worker_pool.specs.Crews.{IsFirst};
ghost use Rattle.host_serve.specs.Kept.{ListensTo};
ghost use Rattle.host_serve.specs.Serve.{heard, left_of};
ghost use Rattle.host_serve.specs.Turns.{HasCatalogue};

use crate::books::{Run, run_books};
use crate::devices::Devices;
use crate::member::Common;
use host_journal::{Opened, ServeOutcome, Watcher};
use rail_io::{Clock, Ticker};
use rail_service::{Bound, Listener};
use std::marker::Brand;
use std::sync::Wait;
use std::sync::ledger::Blank;
use std::thread::Threads;

/// Listens at the port of the words, and serves opened books to the connections that come, while others watch.
pub fn listen_and_serve<
    R: Threads + Wait + Sync,
    L: Listener + Drop + Send,
    T: Ticker + Drop + Send,
    C: Clock + Drop + Send,
    W: Watcher + Drop + Send,
>(
    rt: &R,
    common: Common<'_>,
    opened: Opened,
    devices: Devices<'_, L, T, C>,
    watchers: Vec<W>,
) -> Run<ServeOutcome, L>
where
    L::Input: Send,
    L::Output: Send,
    requires has { HasCatalogue opened.books common.cat.now }
    requires opening { AreSucceeded opened.books.layout.opening }
    requires first { IsFirst opened.books 0 opened.first }
    requires clocks { length devices.clocks.items ≡ clock_count }
    requires fresh { (L.told devices.listener).handed ≡ 0 }
    requires ranges { IsInRange common.said }
    requires few { length watchers.items ≤ 2 }
    ensures never_falls { L.faults devices.entry.listener ≤ L.faults result.listener }
    ensures ends { ListensTo common.entry.cat.now opened.books.layout common.entry.said
        (record
        (left_of (heard L.told L.faults L.becomes L.hands) C.told T.ticked devices.entry result.listener result.wall)
        { watchers = length watchers.items })
        result.outcome }
{
    let Devices {
        mut listener,
        ticker,
        clocks,
        findings,
    } = devices;
    listener.set_limit(common.said.connections);
    if let Bound::Failed = listener.bind(common.said.port) {
        return Run::without_wall(ServeOutcome::NotBound, listener);
    }
    let Run {
        outcome,
        listener,
        wall,
    } = run_books::<Brand, R, L, T, C, W>(
        rt,
        common,
        opened,
        Devices {
            listener,
            ticker,
            clocks,
            findings,
        },
        watchers,
        Blank::new(common.said.workers as u64),
    );
    Run {
        outcome: outcome.outcome(),
        listener,
        wall,
    }
}
