// The cuts that are taken at a gate.
ghost use Rattle.std.specs.Prelude.{◌≡◌, true};
ghost use Rattle.answer_gate.specs.Receipts.{MayLeave};

use crate::gate::Gate;
use crate::receipt::Receipt;
use crate::state::{Closed, Taken};
use crate::tally::Tally;
use std::marker::Brand;
use std::sync::atomic::{AtomicBool, Ordering};
use std::sync::{Condvar, Mutex, Wait};

/// A gate, and the cuts that are taken at it: who has them kept, and who waits for that. What its calls do to the
/// values under its locks, and whom they wake, is read (`State`, `Tally`).
#[derive(Drop)]
pub struct Cuts<K: Receipt + Drop = Brand> {
    gate: Gate,
    tally: Mutex<Tally<K>>,
    /// Whoever waits until a cut of an even number is kept.
    even: Condvar,
    /// Likewise of an odd one.
    odd: Condvar,
    /// Whether the journal is lost.
    lost: AtomicBool,
}

impl<K: Receipt + Drop> Cuts<K> {
    /// An open gate, with nobody inside and no cut taken.
    pub fn new() -> Cuts<K> {
        Cuts {
            gate: Gate::new(),
            tally: Mutex::new(Tally::new()),
            even: Condvar::new(),
            odd: Condvar::new(),
            lost: AtomicBool::new(false),
        }
    }

    /// The gate.
    pub fn gate(&self) -> &Gate {
        &self.gate
    }

    // Where those wait who wait for the cut of this number. Those who wait for the next one wait elsewhere, so that
    // they sleep on while this one is kept.
    fn room(&self, cut: u64) -> &Condvar {
        if cut % 2 == 0 { &self.even } else { &self.odd }
    }

    /// Is to wait until somebody waits for a cut, to close the gate, and to wait until nobody is inside. The gate is to
    /// stay closed until `taken` or `lose`. None where there will be no more cuts: all servers have parted and nothing
    /// is left to be kept, or the journal is lost.
    pub fn next_cut<R: Wait>(&self, rt: &R) -> Option<Closed> {
        let closed = self.gate.close(rt);
        if closed.is_none() {
            self.lost.store(self.gate.is_lost(rt), Ordering::SeqCst);
            self.end(rt);
        }
        closed
    }

    /// The rows were looked at, so the gate is to open.
    pub fn taken<R: Wait>(&self, rt: &R, closed: Closed) -> Taken
        ensures { result.number ≡ closed.number }
    {
        self.gate.open(rt, closed)
    }

    /// The cut is kept, for which this is the receipt, and all before it. Those that wait for it are to be woken.
    pub fn keep<R: Wait>(&self, rt: &R, taken: Taken, receipt: K)
        requires kept { K.kept taken.number }
        requires of { K.of receipt ≡ taken.number }
    {
        let _receipt = receipt;
        let number = taken.number();
        taken.settle();
        self.tally.lock(rt).keep(number);
        self.room(number).notify_all();
        self.gate.keep(rt, number);
    }

    /// The journal is lost, and the cut with it. All are to be woken, and no further cut is ever to be kept.
    pub fn lose<R: Wait>(&self, rt: &R, taken: Taken) {
        taken.settle();
        self.lost.store(true, Ordering::SeqCst);
        self.gate.lose(rt);
        self.end(rt);
    }

    // No more cuts will be kept, and those that wait for one are to be woken.
    fn end<R: Wait>(&self, rt: &R) {
        self.tally.lock(rt).end();
        self.even.notify_all();
        self.odd.notify_all();
    }

    /// Waits until the cut of this number is kept, for which it is to wake the committer. Where it is, that is shown of
    /// it or of a later one; of cut 0 nothing is shown. Of false no clause says a cause: it is to come where the
    /// journal is lost, or over.
    pub fn wait_kept<R: Wait>(&self, rt: &R, cut: u64) -> bool
        ensures { result ≡ true → MayLeave K.kept cut }
    {
        self.gate.want(rt, cut);
        let tally = self
            .room(cut)
            .wait_while(rt, self.tally.lock(rt), |tally| tally.is_awaited(cut));
        tally.has_kept(cut)
    }

    /// Is to say whether the journal is lost: no clause does. It takes no lock.
    pub fn is_lost(&self) -> bool {
        self.lost.load(Ordering::SeqCst)
    }
}
