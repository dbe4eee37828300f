// Threads at a gate.
use answer_gate::{Cuts, GateKeeper, GatedClock, Receipt, Taken};
use rail_io::{Clock, Keeper, Reach, ScriptClock};
use rail_time::Moment;
use std::process::Abort;
use std::sync::Wait;
use std::sync::atomic::{AtomicBool, AtomicU64, Ordering};
use std::test::Fail;
use std::thread;
use std::thread::Threads;

// How many commands each server of a trial carries out.
const COMMANDS: u64 = 2_000;

// A receipt that shows nothing.
#[derive(Drop)]
struct Written {
    number: u64,
}

impl Receipt for Written {
    ghost use Rattle.std.specs.Prelude.{ℕ};

    ghost kept = { λ _. Unit {0} };

    ghost of = { λ w. w.number };
}

// What a server has made so far, and what the last cut that was written shows of it.
#[derive(Drop)]
struct Rows {
    made: AtomicU64,
    shown: AtomicU64,
}

impl Rows {
    fn new() -> Rows {
        Rows {
            made: AtomicU64::new(0),
            shown: AtomicU64::new(0),
        }
    }
}

// Three servers and a committer.
#[derive(Drop)]
struct Trial {
    cuts: Cuts<Written>,
    inside: AtomicU64,
    rows: [Rows; 3],
    wrong: AtomicBool,
}

impl Trial {
    fn new() -> Trial {
        Trial {
            cuts: Cuts::new(),
            inside: AtomicU64::new(0),
            rows: [Rows::new(), Rows::new(), Rows::new()],
            wrong: AtomicBool::new(false),
        }
    }

    fn expect(&self, holds: bool) {
        if !holds {
            self.wrong.store(true, Ordering::SeqCst);
        }
    }

    fn has_failed(&self) -> bool {
        self.wrong.load(Ordering::SeqCst)
    }
}

// A command: it makes the row of this number, and gives the cut of its answer.
fn carry_out<R: Wait>(rt: &R, trial: &Trial, rows: &Rows, number: u64) -> u64 {
    let inside = trial.cuts.gate().enter(rt);
    trial.inside.fetch_add(1, Ordering::SeqCst);
    rows.made.store(number, Ordering::SeqCst);
    trial.inside.fetch_sub(1, Ordering::SeqCst);
    trial.cuts.gate().leave(rt, inside).number()
}

// Each answer's cut is kept, and shows what the command made.
fn serve<R: Wait>(rt: &R, trial: &Trial, rows: &Rows) {
    for number in 1..=COMMANDS {
        let cut = carry_out(rt, trial, rows, number);
        let kept = trial.cuts.wait_kept(rt, cut);
        trial.expect(kept && rows.shown.load(Ordering::SeqCst) >= number);
    }
    trial.cuts.gate().part(rt);
}

// Looks at the rows of all, with nobody inside.
fn look(trial: &Trial) -> [u64; 3] {
    trial.expect(trial.inside.load(Ordering::SeqCst) == 0);
    let [first, second, third] = &trial.rows;
    let seen = [
        first.made.load(Ordering::SeqCst),
        second.made.load(Ordering::SeqCst),
        third.made.load(Ordering::SeqCst),
    ];
    thread::yield_now();
    trial.expect(first.made.load(Ordering::SeqCst) == seen[0]);
    trial.expect(trial.inside.load(Ordering::SeqCst) == 0);
    seen
}

// Writes what was seen.
fn write(trial: &Trial, seen: [u64; 3]) {
    let [first, second, third] = &trial.rows;
    first.shown.store(seen[0], Ordering::SeqCst);
    second.shown.store(seen[1], Ordering::SeqCst);
    third.shown.store(seen[2], Ordering::SeqCst);
}

// Takes cuts until there will be no more: how many.
fn commit<R: Wait>(rt: &R, trial: &Trial) -> u64 {
    let mut cuts = 0;
    for _ in rt.forever() {
        let Some(closed) = trial.cuts.next_cut(rt) else {
            break;
        };
        let seen = look(trial);
        let taken = trial.cuts.taken(rt, closed);
        let cut = taken.number();
        trial.expect(cut > cuts && cut - cuts == 1);
        cuts = cut;
        write(trial, seen);
        trial.cuts.keep(rt, taken, Written { number: cut });
    }
    cuts
}

// Runs the servers in threads of their own, and the committer in this one.
fn run<R: Threads + Wait + Sync>(rt: &R, trial: &Trial) -> u64 {
    trial.cuts.gate().expect(rt, 3);
    thread::scope(thread::scope_env(), rt, |scope| {
        for rows in &trial.rows {
            if scope.spawn(move || serve(rt, trial, rows)).is_err() {
                trial.expect(false);
                trial.cuts.gate().part(rt);
            }
        }
        commit(rt, trial)
    })
}

/// Nobody is inside while a cut is taken; each answer's cut was taken after it, and shows what it tells; the committer
/// ends once all servers have parted.
#[test]
fn cuts_of_three_servers(rt: HostRuntime) -> Result<(), Fail> {
    let trial = Trial::new();
    let cuts = run(&rt, &trial);
    assert!(rt; !trial.has_failed());
    assert!(rt; cuts >= COMMANDS && cuts <= 3 * COMMANDS);
    for rows in &trial.rows {
        assert!(rt; rows.shown.load(Ordering::SeqCst) == COMMANDS);
    }
    assert!(rt; trial.cuts.gate().tell(&rt).number() == cuts);
    assert!(rt; trial.cuts.wait_kept(&rt, cuts));
    Ok(())
}

// Takes the next cut, if there is one.
fn take<R: Wait>(rt: &R, cuts: &Cuts<Written>) -> Option<Taken> {
    match cuts.next_cut(rt) {
        Some(closed) => Some(cuts.taken(rt, closed)),
        None => None,
    }
}

// Takes the next cut, if there is one, and says that it is kept.
fn take_and_keep<R: Wait>(rt: &R, cuts: &Cuts<Written>) -> Option<u64> {
    let taken = take(rt, cuts)?;
    let number = taken.number();
    cuts.keep(rt, taken, Written { number });
    Some(number)
}

// Takes one cut, which is written, and then loses the journal in the next.
fn fail<R: Wait>(rt: &R, trial: &Trial) {
    trial.expect(take_and_keep(rt, &trial.cuts) == Some(1));
    if let Some(taken) = take(rt, &trial.cuts) {
        trial.expect(taken.number() == 2);
        trial.cuts.lose(rt, taken);
    }
    trial.expect(take_and_keep(rt, &trial.cuts).is_none());
}

// Carries out commands until one isn't kept, and one more.
fn serve_until_lost<R: Wait>(rt: &R, trial: &Trial, rows: &Rows) {
    let mut number = 0;
    for _ in rt.forever() {
        let cut = carry_out(rt, trial, rows, number);
        if !trial.cuts.wait_kept(rt, cut) {
            break;
        }
        number = cut;
    }
    trial.expect(number <= 1);
    let cut = carry_out(rt, trial, rows, 2);
    trial.expect(!trial.cuts.wait_kept(rt, cut));
    trial.cuts.gate().part(rt);
}

// Runs three servers until the journal is lost.
fn run_until_lost<R: Threads + Wait + Sync>(rt: &R, trial: &Trial) {
    trial.cuts.gate().expect(rt, 3);
    thread::scope(thread::scope_env(), rt, |scope| {
        for rows in &trial.rows {
            if scope
                .spawn(move || serve_until_lost(rt, trial, rows))
                .is_err()
            {
                trial.expect(false);
            }
        }
        fail(rt, trial);
    });
}

/// A lost journal wakes all who wait for a cut, and no gate is closed any more. A cut that was kept before stays so.
#[test]
fn a_lost_journal(rt: HostRuntime) -> Result<(), Fail> {
    let trial = Trial::new();
    run_until_lost(&rt, &trial);
    assert!(rt; !trial.has_failed());
    assert!(rt; trial.cuts.is_lost());
    assert!(rt; trial.cuts.wait_kept(&rt, 1));
    assert!(rt; !trial.cuts.wait_kept(&rt, 2));
    assert!(rt; take_and_keep(&rt, &trial.cuts).is_none());
    Ok(())
}

// Changes something, parts, and has its answer kept.
fn part_last<R: Wait>(rt: &R, trial: &Trial, rows: &Rows) {
    let cut = carry_out(rt, trial, rows, 1);
    trial.cuts.gate().part(rt);
    trial.expect(trial.cuts.wait_kept(rt, cut));
}

// Runs one server and the committer.
fn run_one<R: Threads + Wait + Sync>(rt: &R, trial: &Trial) -> u64 {
    trial.cuts.gate().expect(rt, 1);
    let [rows, ..] = &trial.rows;
    let (cuts, ()) = thread::join(rt, || commit(rt, trial), || part_last(rt, trial, rows));
    cuts
}

/// The committer ends once the last server has parted, with all kept; an answer after that is never kept.
#[test]
fn the_last_server_parts(rt: HostRuntime) -> Result<(), Fail> {
    let trial = Trial::new();
    let cuts = run_one(&rt, &trial);
    assert!(rt; !trial.has_failed() && cuts == 1);
    let [rows, ..] = &trial.rows;
    let late = carry_out(&rt, &trial, rows, 2);
    assert!(rt; late == 2 && !trial.cuts.wait_kept(&rt, late));
    assert!(rt; !trial.cuts.is_lost());
    Ok(())
}

// A clock that stands.
fn standing_clock<R: Abort>(rt: &R) -> ScriptClock {
    ScriptClock {
        next: Moment::of(1_800_000_000).expect(rt, "a moment of this century"),
        tick: 0,
    }
}

// The cut of a command of this reach.
fn told_of<C: Clock>(clock: &mut C, reach: Reach) -> u64 {
    clock.begin(reach);
    clock.end()
}

/// What a command learns by its reach, before a change, after it, while its cut is taken, and once that is kept.
#[test]
fn cuts_by_reach(rt: HostRuntime) -> Result<(), Fail> {
    let cuts = Cuts::<Written>::new();
    let gate = cuts.gate();
    let mut clock = GatedClock::new(standing_clock(&rt), Some(gate), &rt);
    assert!(rt; told_of(&mut clock, Reach::Tells) == 0);
    clock.begin(Reach::Changes);
    assert!(rt; gate.tell(&rt).number() == 1);
    assert!(rt; clock.end() == 1);
    assert!(rt; told_of(&mut clock, Reach::Apart) == 0);
    assert!(rt; told_of(&mut clock, Reach::Tells) == 1);
    let closed = cuts.next_cut(&rt).expect(&rt, "a cut");
    assert!(rt; told_of(&mut clock, Reach::Tells) == 1);
    let first = cuts.taken(&rt, closed);
    let number = first.number();
    assert!(rt; number == 1);
    assert!(rt; told_of(&mut clock, Reach::Tells) == 1);
    clock.begin(Reach::Changes);
    assert!(rt; gate.tell(&rt).number() == 2);
    assert!(rt; clock.end() == 2);
    assert!(rt; told_of(&mut clock, Reach::Tells) == 2);
    cuts.keep(&rt, first, Written { number });
    assert!(rt; told_of(&mut clock, Reach::Tells) == 2);
    assert!(rt; take_and_keep(&rt, &cuts) == Some(2));
    assert!(rt; told_of(&mut clock, Reach::Tells) == 2);
    assert!(rt; clock.end() == 0);
    assert!(rt; take_and_keep(&rt, &cuts).is_none());
    let keeper = GateKeeper::new(&cuts, &rt);
    assert!(rt; keeper.wait_kept(2) && !keeper.wait_kept(3) && !keeper.is_lost());
    Ok(())
}

/// Someone who is inside may be changing what is told. The committer sleeps through changes until somebody waits for
/// their cut, and is woken for it once. Once all servers have parted it takes what is left.
#[test]
fn woken_by_who_waits(rt: HostRuntime) -> Result<(), Fail> {
    let cuts = Cuts::<Written>::new();
    let gate = cuts.gate();
    gate.expect(&rt, 1);
    for _command in 0..3 {
        let inside = gate.enter(&rt);
        assert!(rt; gate.tell(&rt).number() == 1);
        assert!(rt; gate.leave(&rt, inside).number() == 1);
    }
    let (cut, kept) = thread::join(&rt, || take_and_keep(&rt, &cuts), || cuts.wait_kept(&rt, 1));
    assert!(rt; kept && cut == Some(1));
    let inside = gate.enter(&rt);
    gate.part(&rt);
    assert!(rt; gate.leave(&rt, inside).number() == 2);
    assert!(rt; take_and_keep(&rt, &cuts) == Some(2));
    assert!(rt; take_and_keep(&rt, &cuts).is_none());
    Ok(())
}
