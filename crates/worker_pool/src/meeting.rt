// The first desk meets the others.
ghost use Rattle.std.specs.Prelude.{◌≡◌, ◌<◌, ◌+◌, length, slice_index_or};
ghost use Rattle.worker_pool.specs.Crews.{IsCrew, IsFirst, HasGiven, HasMetAll, HasRun};

use crate::gate::Open;
use crate::giving::Gives;
use crate::member::Member;
use crate::running::run_workers;
use claim_rule::{Books, Desk};
use std::sync::Wait;
use std::sync::ledger::{Ledger, Share};
use std::thread::Threads;

// Takes in the desks of all members but the first, which is handed back, and what those had counted.
fn meet_others<N: Ledger, W: Gives<N> + Drop>(
    books: &Books,
    first: &mut Desk,
    mut crew: Vec<Member<W>>,
    all: &mut Share<N>,
) -> Member<W>
    requires some { 0 < length crew.items }
    requires crew { IsCrew W.fits books.now crew.items }
    requires first { IsFirst books.now (length crew.items) first.old }
    ensures first { HasMetAll books.now crew.items 1 first.new }
    ensures given { HasGiven W.parts W.amount crew.items 1 (record { parts = all.old.parts; amount = all.old.amount })
        (record { parts = all.new.parts; amount = all.new.amount }) }
    ensures left { (none : _) → result ≡ slice_index_or crew.items 0 none }
{
    while crew.len() > 1 {
        let member = crew.pop().unwrap();
        books.meet(first, member.desk);
        member.worker.give(all);
    }
    crew.pop().unwrap()
}

/// Runs a crew until its members have ended, joins the desks of all but the first, with what those had counted, and
/// hands that one back.
pub fn run_crew<R: Threads + Wait + Sync, N: Ledger, W: Gives<N> + Send + Drop>(
    rt: &R,
    books: &Books,
    first: &mut Desk,
    mut crew: Vec<Member<W>>,
    all: &mut Share<N>,
) -> Member<W>
    requires some { 0 < length crew.items }
    requires crew { IsCrew W.fits books.now crew.items }
    requires first { IsFirst books.now (length crew.items) first.old }
    ensures run { HasRun W.fits W.does W.ended W.parts W.amount books.now crew.items
        (record { parts = all.old.parts; amount = all.old.amount })
        (record { parts = all.new.parts; amount = all.new.amount }) first.new result }
{
    run_workers(rt, books, crew.as_mut_slice(), &Open);
    meet_others(books, first, crew, all)
}
