// The members and their desks.
ghost use Rattle.std.specs.Prelude.{◌≡◌, ◌<◌, ◌≤◌, ◌+◌, [], length, map, vec_capacity};
ghost use Rattle.claim_rule.specs.Desks.{IsOf};
ghost use Rattle.claim_rule.specs.Out.{IsTidy};
ghost use Rattle.worker_pool.specs.Crews.{IsCrew, IsFirst};
ghost use Rattle.host_serve.specs.Crews.{AreGated, AreReady, Filling};
ghost use Rattle.host_serve.specs.Turns.{FitsBooks, HasCatalogue, gated};

use crate::member::{Common, Post};
use crate::serving::Server;
use crate::shared_listener::Named;
use crate::streams::{Door, LockedStreams};
use crate::sweeping::Sweeper;
use answer_gate::GatedClock;
use claim_rule::{Books, Desk};
use host_journal::{Lookout, Opened, Watcher};
use rail_io::{Clock, Ticker};
use rail_service::Listener;
use std::sync::Wait;
use std::sync::ledger::Share;
use worker_pool::Member;

/// The members at the streams of a shared listener.
pub type Crew<'s, R, L, N, T, C, W> = Vec<
    Member<Post<'s, LockedStreams<'s, R, L, N>, T, GatedClock<'s, R, C>, W>>,
>;

/// What a crew is made with: the sweeping member's ticker, a clock for it and for each that serves, those who watch,
/// and the share of which each that serves gets a part.
pub struct Means<N: Named, T, C, W> {
    pub ticker: T,
    pub clocks: Vec<C>,
    pub watchers: Vec<W>,
    pub share: Share<N>,
}

/// A crew, and what is left of the share.
pub struct Crewed<'s, R, L: Listener + Drop, N: Named, T, C, W> {
    pub crew: Crew<'s, R, L, N, T, C, W>,
    pub rest: Share<N>,
}

/// As many serving members as the words say, and after them a sweeping one. Each has a desk that was parted from the
/// first, and a clock of its own, which goes through the gate: the last clock is the first member's. Each member that
/// serves has a part of the share. The watchers come last, each at such a desk. There is room for all, so that this
/// can't fail once there is a listener to share.
pub fn crew_of<
    's,
    R: Wait,
    L: Listener + Drop,
    N: Named,
    T: Ticker + Drop,
    C: Clock + Drop,
    W: Watcher + Drop,
>(
    rt: &'s R,
    door: &'s Door<L, N>,
    common: Common<'s>,
    opened: &mut Opened,
    means: Means<N, T, C, W>,
    mut crew: Crew<'s, R, L, N, T, C, W>,
) -> Crewed<'s, R, L, N, T, C, W>
    requires has { HasCatalogue opened.old.books common.cat.now }
    requires first { IsFirst opened.old.books 0 opened.old.first }
    requires clocks { common.said.workers + 1 ≤ length means.clocks.items }
    requires parts { means.share.parts ≡ common.said.workers }
    requires nothing { means.share.amount ≡ 0 }
    requires nobody { crew.items ≡ [] }
    requires room { common.said.workers + 1 + length means.watchers.items ≤ vec_capacity crew }
    ensures books { opened.new.books ≡ opened.old.books }
    ensures first { IsFirst opened.new.books (length result.crew.items) opened.new.first }
    ensures crew { IsCrew FitsBooks opened.new.books result.crew.items }
    ensures ready { AreReady result.crew.items (λ s. s.share.amount) (gated C.told)
        (record {
          cat = common.entry.cat.now;
          said = common.entry.said;
          ticker = means.ticker;
          clocks = map C.told means.clocks.items;
        }) }
    ensures gated { AreGated result.crew.items (λ clock. clock.gate) common.entry.gate }
    ensures parts { result.rest.parts ≡ 0 }
    ensures nothing { result.rest.amount ≡ 0 }
    ensures count { length result.crew.items ≡ common.entry.said.workers + 1 + length means.watchers.items }
{
    let Means {
        ticker,
        mut clocks,
        watchers,
        mut share,
    } = means;
    for _number in 0..common.said.workers {
        let worker = Post::Serving(Server {
            streams: LockedStreams {
                rt,
                door,
                gate: common.gate,
                marked: None,
                share: share.split_off(1, 0),
            },
            common,
            clock: GatedClock::new(clocks.pop().unwrap(), common.gate, rt),
            ended: false,
        });
        crew.push_reserved(Member {
            desk: opened.books.part(&mut opened.first),
            worker,
        });
    }
    let worker = Post::Sweeping(Sweeper {
        ticker,
        seconds: common.said.sweep,
        clock: GatedClock::new(clocks.pop().unwrap(), common.gate, rt),
        findings: common.findings,
        ended: false,
    });
    crew.push_reserved(Member {
        desk: opened.books.part(&mut opened.first),
        worker,
    });
    Crewed {
        crew: with_watchers(&opened.books, &mut opened.first, watchers, crew),
        rest: share,
    }
}

/// The watchers after the other members, each at a desk that was parted from the first.
fn with_watchers<
    's,
    R: Wait,
    L: Listener + Drop,
    N: Named,
    T: Ticker + Drop,
    C: Clock + Drop,
    W: Watcher + Drop,
>(
    books: &Books,
    first: &mut Desk,
    mut watchers: Vec<W>,
    mut crew: Crew<'s, R, L, N, T, C, W>,
) -> Crew<'s, R, L, N, T, C, W>
    requires first { IsFirst books.now (length crew.items) first.old }
    requires crew { IsCrew FitsBooks books.now crew.items }
    requires room { length crew.items + length watchers.items ≤ vec_capacity crew }
    ensures first { IsFirst books.now (length result.items) first.new }
    ensures crew { IsCrew FitsBooks books.now result.items }
    ensures ready { (with_these : Filling T) → with_these.said.workers < length crew.entry.items
        → AreReady crew.entry.items (λ s. s.share.amount) (gated C.told) with_these
        → AreReady result.items (λ s. s.share.amount) (gated C.told) with_these }
    ensures gated { (gate : _) → AreGated crew.entry.items (λ clock. clock.gate) gate
        → AreGated result.items (λ clock. clock.gate) gate }
    ensures count { length result.items ≡ length crew.entry.items + length watchers.items }
{
    while let Some(watcher) = watchers.pop() {
        let worker = Post::Watching(Lookout {
            watcher,
            ended: false,
        });
        crew.push_reserved(Member {
            desk: books.part(first),
            worker,
        });
    }
    crew
}
