// The books of a catalogue, served by the members.
ghost use Rattle.std.specs.Prelude.{◌≡◌, ◌≢◌, ◌≤◌, ◌<◌, ◌+◌, ◌^◌, ℕ, All, true, false, length};
ghost use Rattle.rail_io.specs.Faults.{Rose};
ghost use Rattle.rail_service.specs.Listeners.{GivesOnly, IsGiven};
ghost use Rattle.leg_masks.specs.Interval.{most_places};
ghost use Rattle.history_model.specs.Booking.{most_rows};
ghost use Rattle.claim_rule.specs.Rule.{most_place_legs};
ghost use Rattle.claim_rule.specs.Desks.{IsOf};
ghost use Rattle.claim_rule.specs.Out.{IsIdle, IsTidy};
ghost use Rattle.claim_rule.specs.Walls.{Finishes};
ghost use Rattle.cold_store.specs.Tidy.{AreSucceeded};
ghost use Rattle.worker_pool.specs.Turns.{KeepsDesk};
ghost use Rattle.host_serve.specs.declared.shared_listener.ListenerEnd.TheVariants as end;
ghost use Rattle.worker_pool.specs.Crews.{IsFirst};
ghost use Rattle.host_serve.specs.Over.{EndsOver};
ghost use Rattle.host_serve.specs.Serve.{BooksEnd, heard, left_of};
ghost use Rattle.host_serve.specs.Turns.{HasCatalogue, Chain, Connection};

use crate::crew::{Crewed, Means, crew_of};
use crate::devices::Devices;
use crate::draining::drain_listener;
use crate::letting::Dropping;
use crate::member::Common;
use crate::shared_listener::{Ended, ListenerEnd, Named, SharedListener};
use crate::streams::Door;
use crate::until::Until;
use answer_gate::GatedClock;
use claim_rule::{Books, Desk, Wall};
use host_journal::{BooksOutcome, Opened, Watcher};
use rail_io::{Clock, Ticker};
use rail_service::Listener;
use std::sync::Wait;
use std::sync::ledger::Blank;
use std::thread::Threads;
use worker_pool::{Member, run_crew};

/// How it ended, and what is left of it.
pub struct Run<O, L> {
    pub outcome: O,
    pub listener: L,
    pub wall: Option<Wall>,
}

impl<O, L> Run<O, L> {
    ghost use Rattle.std.specs.Prelude.{◌≡◌, None};

    /// A run that has left no wall.
    pub fn without_wall(outcome: O, listener: L) -> Run<O, L>
        ensures outcome { result.outcome ≡ outcome }
        ensures listener { result.listener ≡ listener }
        ensures wall { result.wall ≡ None }
    {
        Run {
            outcome,
            listener,
            wall: None,
        }
    }
}

/// Serves what is left of the listener's streams at the member's desk, where the listener hasn't ended: whether as many
/// as its limit were then handed out, or an accept failed.
fn finish_listener<N: Named, L: Listener + Drop, C: Clock>(
    common: Common<'_>,
    books: &Books,
    desk: &mut Desk,
    ended: &mut Ended<L>,
    clock: &mut C,
) -> bool
    requires has { HasCatalogue books.now common.cat.now }
    requires own { IsOf books.now desk.old }
    requires tidy { IsTidy desk.old }
    requires port { (L.told ended.old.listener).port ≡ N.port }
    requires limit { ((L.told ended.old.listener).limit ≡ N.limit) × (N.limit ≡ common.said.connections) }
    requires within { (L.told ended.old.listener).handed ≤ N.limit }
    requires gives { GivesOnly L.becomes L.hands ended.old.listener N.gives }
    requires faults { N.faults ≤ L.faults ended.old.listener }
    requires steady { ended.old.end ≢ end.Failed → L.faults ended.old.listener ≡ N.faults }
    requires rose { ended.old.end ≡ end.Failed → Rose N.faults (L.faults ended.old.listener) }
    requires failed { ended.old.end ≡ end.Failed → (L.told ended.old.listener).handed < N.limit }
    requires closed { ended.old.end ≡ end.Closed → N.limit ≤ (L.told ended.old.listener).handed }
    ensures own { IsOf books.now desk.new }
    ensures tidy { IsTidy desk.new }
    ensures keeps { KeepsDesk desk.old desk.new }
    ensures turns { (n : ℕ) × ((L.told ended.new.listener).handed ≡ (L.told ended.old.listener).handed + n)
        × Chain (Connection (IsGiven N.gives) common.entry.cat.now) n
        (record { desk = desk.old; clock = C.told clock.old })
        (record { desk = desk.new; clock = C.told clock.new }) }
    ensures never_falls { L.faults ended.old.listener ≤ L.faults ended.new.listener }
    ensures steady { result ≡ true → L.faults ended.new.listener ≡ N.faults }
    ensures spent { result ≡ true
        → L.told ended.new.listener ≡ record { port = N.port; limit = N.limit; handed = N.limit } }
    ensures failed { result ≡ false → Rose N.faults (L.faults ended.new.listener)
        × ((L.told ended.new.listener).handed < N.limit) }
    ensures port { (L.told ended.new.listener).port ≡ N.port }
    ensures limit { (L.told ended.new.listener).limit ≡ N.limit }
{
    match ended.end {
        ListenerEnd::Closed => true,
        ListenerEnd::Failed => false,
        ListenerEnd::Open => drain_listener::<N, L, C, Dropping>(
            common,
            books,
            desk,
            &mut ended.listener,
            common.said.connections,
            clock,
        ),
    }
}

/// Closes the books. Their limits are the wall's.
fn close(books: Books, first: Desk) -> Wall
    requires own { IsOf books first }
    requires idle { IsIdle first }
    ensures layout { result.layout ≡ books.layout }
    ensures history { Finishes books.layout first result.words result.history }
    ensures places { length result.layout.legs ≤ most_places }
    ensures legs { All (λ n. n ≤ most_place_legs) result.layout.legs }
    ensures rows { result.layout.rows ≤ most_rows }
{
    let _limits = (books.places(), books.rows());
    books.finish(first)
}

/// Serves the listener's streams by a crew, while others watch, and closes the books.
pub fn run_books<
    'x,
    N: Named + Send + Sync,
    R: Threads + Wait + Sync,
    L: Listener + Drop + Send,
    T: Ticker + Drop + Send,
    C: Clock + Drop + Send,
    W: Watcher + Drop + Send,
>(
    rt: &'x R,
    common: Common<'x>,
    opened: Opened,
    devices: Devices<'_, L, T, C>,
    watchers: Vec<W>,
    blank: Blank,
) -> Run<BooksOutcome, L>
where
    L::Input: Send,
    L::Output: Send,
    requires name { blank.name ≡ N.name }
    requires parts { blank.parts ≡ N.parts }
    requires one_each { blank.parts ≡ common.said.workers }
    requires has { HasCatalogue opened.books common.cat.now }
    requires opening { AreSucceeded opened.books.layout.opening }
    requires first { IsFirst opened.books 0 opened.first }
    requires clocks { common.said.workers + 1 ≤ length devices.clocks.items }
    requires faults { N.faults ≡ L.faults devices.listener }
    requires view { L.told devices.listener ≡ record { port = N.port; limit = N.limit; handed = 0 } }
    requires port { N.port ≡ common.said.port }
    requires limit { N.limit ≡ common.said.connections }
    requires gives { GivesOnly L.becomes L.hands devices.listener N.gives }
    requires over { EndsOver L.told L.faults L.becomes N.limit N.faults N.over devices.listener }
    requires workers { 1 ≤ common.said.workers }
    requires few { common.said.workers + 1 + length watchers.items < 2 ^ 63 }
    ensures never_falls { L.faults devices.entry.listener ≤ L.faults result.listener }
    ensures ends { BooksEnd common.entry.cat.now opened.books.layout common.entry.said
        (record
        (left_of (heard L.told L.faults L.becomes L.hands) C.told T.ticked devices.entry result.listener result.wall)
        { hands = IsGiven N.gives; watchers = length watchers.items })
        result.outcome }
{
    let mut opened = opened;
    let members = common.said.workers as usize + 1 + watchers.len();
    let Ok(room) = Vec::with_capacity(common.alloc, members) else {
        return Run::without_wall(BooksOutcome::NoMemory, devices.listener);
    };
    let (book, rest) = blank.open::<N>();
    let door = Door::to(SharedListener::new(devices.listener, book));
    let shared = &door;
    let Crewed { crew, mut rest } = crew_of(
        rt,
        shared,
        common,
        &mut opened,
        Means {
            ticker: Until::of(devices.ticker, shared, common, rt),
            clocks: devices.clocks,
            watchers,
            share: rest,
        },
        room,
    );
    let Member { mut desk, worker } = run_crew(
        rt,
        &opened.books,
        &mut opened.first,
        crew,
        &mut rest,
    );
    let clock = worker.into_clock(&mut rest).unwrap().into_inner();
    let mut clock = GatedClock::new(clock, common.gate, rt);
    let Opened { books, mut first } = opened;
    let mut ended = door.shared.into_inner().into_listener(&mut rest);
    let all = finish_listener::<N, L, _>(common, &books, &mut desk, &mut ended, &mut clock);
    books.meet(&mut first, desk);
    Run {
        outcome: BooksOutcome::of(all),
        listener: ended.listener,
        wall: Some(close(books, first)),
    }
}
