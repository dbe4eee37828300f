// The gate.
ghost use Rattle.std.specs.Prelude.{◌≡◌, ◌<◌};

use crate::state::{Closed, Cut, Inside, State, Taken};
use std::sync::{Condvar, Mutex, Wait};

/// The gate that commands go through which change bookings. What its calls do to the value under its lock, and whom
/// they wake, is read: they are to make the calls of `State`.
#[derive(Drop)]
pub struct Gate {
    state: Mutex<State>,
    /// Whoever waits to enter.
    entering: Condvar,
    /// The committer, which waits until somebody waits for a cut, or until nobody is inside.
    committer: Condvar,
}

impl Gate {
    /// An open gate, with nobody inside and no cut taken.
    pub(crate) fn new() -> Gate {
        Gate {
            state: Mutex::new(State::new()),
            entering: Condvar::new(),
            committer: Condvar::new(),
        }
    }

    /// Enters. It is to wait while the gate is closed.
    pub fn enter<R: Wait>(&self, rt: &R) -> Inside {
        let mut state = self
            .entering
            .wait_while(rt, self.state.lock(rt), |state| !state.is_open());
        state.enter()
    }

    /// Leaves, and is told the cut of its answer, which isn't 0. It is to be the next to be taken, since something may
    /// have changed.
    pub fn leave<R: Wait>(&self, rt: &R, inside: Inside) -> Cut
        ensures { 0 < result.number }
    {
        let mut state = self.state.lock(rt);
        let wakes = state.holds_committer();
        let cut = state.leave(inside);
        drop(state);
        if wakes {
            self.committer.notify_one();
        }
        cut
    }

    /// The cut of an answer that only tells of bookings. It is to be the last one, where nothing can have changed
    /// since. That may be kept already; then whoever waits for it is to be told so at once.
    pub fn tell<R: Wait>(&self, rt: &R) -> Cut {
        self.state.lock(rt).tell()
    }

    /// So many members will serve. It is called once, before they do and before the first cut.
    pub fn expect<R: Wait>(&self, rt: &R, servers: u32) {
        self.state.lock(rt).expect(servers);
    }

    /// One of them has ended.
    pub fn part<R: Wait>(&self, rt: &R) {
        let mut state = self.state.lock(rt);
        state.part();
        let wakes = !state.is_quiet();
        drop(state);
        if wakes {
            self.committer.notify_one();
        }
    }

    /// Somebody waits for the cut of this number: the committer is to be woken for it.
    pub(crate) fn want<R: Wait>(&self, rt: &R, cut: u64) {
        if self.state.lock(rt).want(cut) {
            self.committer.notify_one();
        }
    }

    /// Is to wait until somebody waits for a cut, to close the gate, and to wait until nobody is inside. None where
    /// there will be no more cuts.
    pub(crate) fn close<R: Wait>(&self, rt: &R) -> Option<Closed> {
        let mut state = self
            .committer
            .wait_while(rt, self.state.lock(rt), |state| state.is_quiet());
        if !state.has_work() {
            state.finish();
            return None;
        }
        state.close();
        let mut state = self
            .committer
            .wait_while(rt, state, |state| state.is_closing());
        state.look()
    }

    /// Opens the gate.
    pub(crate) fn open<R: Wait>(&self, rt: &R, closed: Closed) -> Taken
        ensures { result.number ≡ closed.number }
    {
        let taken = self.state.lock(rt).open(closed);
        self.entering.notify_all();
        taken
    }

    /// The cut of this number is kept, and all before it.
    pub(crate) fn keep<R: Wait>(&self, rt: &R, cut: u64) {
        self.state.lock(rt).keep(cut);
    }

    /// The journal is lost: opens the gate.
    pub(crate) fn lose<R: Wait>(&self, rt: &R) {
        self.state.lock(rt).lose();
        self.entering.notify_all();
        self.committer.notify_one();
    }

    /// Whether the journal is lost.
    pub(crate) fn is_lost<R: Wait>(&self, rt: &R) -> bool {
        self.state.lock(rt).is_lost()
    }
}
