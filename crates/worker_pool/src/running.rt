// A crew at work.
ghost use Rattle.std.specs.Prelude.{◌<◌, All};
ghost use Rattle.claim_rule.specs.Desks.{IsOf};
ghost use Rattle.claim_rule.specs.Out.{IsTidy};
ghost use Rattle.worker_pool.specs.Turns.{KeepsDesk, RunsToEnd, EachMember};
ghost use Rattle.worker_pool.specs.declared.member.Member.{Member};

use crate::gate::Gate;
use crate::member::Member;
use crate::worker::{TurnEnd, Worker};
use claim_rule::Books;
use std::sync::Wait;
use std::thread;
use std::thread::Threads;

// Takes the member's turns until one ends its worker.
fn run_member<R: Wait, W: Worker, G: Gate>(
    rt: &R,
    books: &Books,
    member: &mut Member<W>,
    gate: &G,
    number: u32,
)
    requires fits { W.fits member.old.worker books.now }
    requires own { IsOf books.now member.old.desk }
    requires tidy { IsTidy member.old.desk }
    ensures fits { W.fits member.new.worker books.now }
    ensures own { IsOf books.now member.new.desk }
    ensures tidy { IsTidy member.new.desk }
    ensures keeps { KeepsDesk member.old.desk member.new.desk }
    ensures turns { RunsToEnd W.does W.ended member.old.worker member.old.desk member.new.worker member.new.desk }
{
    for _ in rt.forever() {
        gate.before(number);
        let end = member.worker.turn(books, &mut member.desk);
        gate.after(number);
        if let TurnEnd::End = end {
            return;
        }
    }
    unreachable!()
}

/// Runs the turns of each member until one ends its worker, at the same time as those of the others as far
/// as threads can be made, with the gate's calls round each turn. The gate knows a member by its place in the
/// crew, from 0, and all after 4,294,967,295 by that number. Of threads and of the gate's calls no clause speaks.
pub fn run_workers<R: Threads + Wait + Sync, W: Worker + Send, G: Gate + Sync>(
    rt: &R,
    books: &Books,
    crew: &mut [Member<W>],
    gate: &G,
)
    requires fits { All (λ m. W.fits m.worker books.now) crew.old }
    requires own { All (λ m. IsOf books.now m.desk) crew.old }
    requires tidy { All (λ m. IsTidy m.desk) crew.old }
    ensures fits { EachMember (λ _ m. W.fits m.worker books.now) crew.old crew.new }
    ensures own { EachMember (λ _ m. IsOf books.now m.desk) crew.old crew.new }
    ensures tidy { EachMember (λ _ m. IsTidy m.desk) crew.old crew.new }
    ensures keeps { EachMember (λ m n. KeepsDesk m.desk n.desk) crew.old crew.new }
    ensures turns { EachMember (λ m n. RunsToEnd W.does W.ended m.worker m.desk n.worker n.desk) crew.old crew.new }
{
    if crew.is_empty() {
        return;
    }
    let threads = crew.len();
    thread::for_each_mut(
        rt,
        crew,
        threads,
        &|number: usize, member: &mut Member<W>|
            requires { W.fits member.old.worker books.now × IsOf books.now member.old.desk × IsTidy member.old.desk }
            ensures fits { W.fits member.new.worker books.entry.now }
            ensures own { IsOf books.entry.now member.new.desk }
            ensures tidy { IsTidy member.new.desk }
            ensures keeps { KeepsDesk member.old.desk member.new.desk }
            ensures turns { RunsToEnd W.does W.ended member.old.worker member.old.desk
                member.new.worker member.new.desk }
        {
            let number = u32::try_from(number).unwrap_or(u32::MAX);
            run_member(rt, books, member, gate, number);
        },
    );
}
