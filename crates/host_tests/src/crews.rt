// Crews at work.
ghost use Rattle.std.specs.Prelude.{◌≡◌, ◌≢◌, IfOk};
ghost use Rattle.claim_rule.specs.Desks.{IsOf};
ghost use Rattle.claim_rule.specs.Out.{IsTidy};

use claim_rule::{Books, Desk, start_books};
use std::sync::atomic::{AtomicBool, AtomicU32, Ordering};
use std::test::Fail;
use std::thread;
use worker_pool::{Gate, Member, Open, TurnEnd, Worker, run_workers};

const LIMIT: u32 = 10_000_000;

// Waits until the other member's turn was answered, or not at all.
#[derive(Drop)]
struct Job<'a> {
    waits: bool,
    answered: &'a AtomicBool,
    met: bool,
}

impl Worker for Job<'_> {
    ghost use Rattle.std.specs.Prelude.{◌≡◌, ◌+◌, ◌↔◌};
    ghost use Rattle.claim_rule.specs.Desks.{IsOf};
    ghost use Rattle.claim_rule.specs.Out.{IsTidy};

    ghost fits = { λ _ _. Unit {0} };

    ghost ended = { λ _. Unit {0} };

    ghost does = { λ _ _ _ _. Unit {0} };

    fn turn(&mut self, _books: &Books, _desk: &mut Desk) -> TurnEnd {
        self.met = !self.waits || becomes_true(self.answered);
        TurnEnd::End
    }
}

// Whether the mark is set before the limit.
fn becomes_true(mark: &AtomicBool) -> bool {
    for _ in 0..LIMIT {
        if mark.load(Ordering::SeqCst) {
            return true;
        }
        thread::yield_now();
    }
    false
}

// Marks that the second member's turn was answered.
#[derive(Drop)]
struct SecondAnswered<'a>(&'a AtomicBool);

impl Gate for SecondAnswered<'_> {
    fn before(&self, _member: u32) {}

    fn after(&self, member: u32) {
        if member == 1 {
            self.0.store(true, Ordering::SeqCst);
        }
    }
}

/// The first member's turn waits until the second's was answered: members run at the same time.
#[test]
fn gate_of_two_members(rt: HostRuntime) -> Result<(), Fail> {
    let (books, mut desk) = start_books(rt.alloc(), &[1], 1)?;
    let answered = AtomicBool::new(false);
    let first = Member {
        desk: books.part(&mut desk),
        worker: Job {
            waits: true,
            answered: &answered,
            met: false,
        },
    };
    let second = Member {
        desk: books.part(&mut desk),
        worker: Job {
            waits: false,
            answered: &answered,
            met: false,
        },
    };
    let mut crew = [first, second];
    run_workers(&rt, &books, crew.as_mut_slice(), &SecondAnswered(&answered));
    assert!(rt; crew[0].worker.met);
    assert!(rt; crew[1].worker.met);
    Ok(())
}

// Counts the gate's calls for each of three members, and whether each stood where it belongs.
#[derive(Drop)]
struct Rounds {
    before: [AtomicU32; 3],
    after: [AtomicU32; 3],
    wrong: AtomicBool,
}

impl Rounds {
    fn new() -> Rounds {
        Rounds {
            before: [AtomicU32::new(0), AtomicU32::new(0), AtomicU32::new(0)],
            after: [AtomicU32::new(0), AtomicU32::new(0), AtomicU32::new(0)],
            wrong: AtomicBool::new(false),
        }
    }

    // Whether the member is within a turn: one more call came before than after.
    fn expect(&self, member: u32, within: bool) {
        let begun = count(&self.before, member);
        let ended = count(&self.after, member);
        if begun.saturating_sub(ended) != u32::from(within) || ended > begun {
            self.wrong.store(true, Ordering::SeqCst);
        }
    }
}

fn count(calls: &[AtomicU32; 3], member: u32) -> u32 {
    match calls.get(member as usize) {
        Some(calls) => calls.load(Ordering::SeqCst),
        None => u32::MAX,
    }
}

fn add(calls: &[AtomicU32; 3], member: u32) {
    if let Some(calls) = calls.get(member as usize) {
        calls.fetch_add(1, Ordering::SeqCst);
    }
}

impl Gate for Rounds {
    fn before(&self, member: u32) {
        self.expect(member, false);
        add(&self.before, member);
    }

    fn after(&self, member: u32) {
        self.expect(member, true);
        add(&self.after, member);
    }
}

// Takes this many turns, and one at least.
#[derive(Drop)]
struct Counted<'a> {
    number: u32,
    left: u32,
    taken: u32,
    rounds: &'a Rounds,
}

impl Worker for Counted<'_> {
    ghost use Rattle.std.specs.Prelude.{◌≡◌, ◌+◌, ◌↔◌};

    ghost fits = { λ _ _. Unit {0} };

    ghost ended = { λ w. w.left ≡ 0 };

    ghost does = { λ _ _ _ _. Unit {0} };

    fn turn(&mut self, _books: &Books, _desk: &mut Desk) -> TurnEnd {
        self.rounds.expect(self.number, true);
        self.taken = self.taken.saturating_add(1);
        self.left = self.left.saturating_sub(1);
        if self.left == 0 {
            TurnEnd::End
        } else {
            TurnEnd::Again
        }
    }
}

fn member_of<'a>(
    books: &Books,
    desk: &mut Desk,
    number: u32,
    left: u32,
    rounds: &'a Rounds,
) -> Member<Counted<'a>>
    requires own { IsOf books.now desk.old }
    requires first { desk.old.number ≡ 0 }
    ensures own { IsOf books.now desk.new × IsOf books.now result.desk }
    ensures first { desk.new.number ≡ 0 }
    ensures tidy { IsTidy result.desk }
{
    Member {
        desk: books.part(desk),
        worker: Counted {
            number,
            left,
            taken: 0,
            rounds,
        },
    }
}

/// Each member takes its turns until its own end, with the gate's calls round each.
#[test]
fn members_end_at_different_turns(rt: HostRuntime) -> Result<(), Fail> {
    let (books, mut desk) = start_books(rt.alloc(), &[1], 1)?;
    let rounds = Rounds::new();
    let first = member_of(&books, &mut desk, 0, 1, &rounds);
    let second = member_of(&books, &mut desk, 1, 5, &rounds);
    let third = member_of(&books, &mut desk, 2, 1000, &rounds);
    let mut crew = [first, second, third];
    run_workers(&rt, &books, crew.as_mut_slice(), &rounds);
    for (member, turns) in [1, 5, 1000].iter().enumerate() {
        assert!(rt; crew[member].worker.taken == *turns);
        assert!(rt; count(&rounds.before, member as u32) == *turns);
        assert!(rt; count(&rounds.after, member as u32) == *turns);
    }
    assert!(rt; !rounds.wrong.load(Ordering::SeqCst));
    Ok(())
}

/// One member alone, whose desk is then joined, and no member at all.
#[test]
fn one_member_and_none(rt: HostRuntime) -> Result<(), Fail> {
    let (books, mut desk) = start_books(rt.alloc(), &[1], 1)?;
    let rounds = Rounds::new();
    let mut crew = [member_of(&books, &mut desk, 0, 3, &rounds)];
    run_workers(&rt, &books, crew.as_mut_slice(), &Open);
    assert!(rt; crew[0].worker.taken == 3);
    let mut nobody: [Member<Counted<'_>>; 0] = [];
    run_workers(&rt, &books, nobody.as_mut_slice(), &Open);
    Ok(())
}
