//! What the members of a host tell the window of its books.
use crate::found::{Finds, Found};
use crate::tallies::Tally;
use std::sync::atomic::{AtomicU64, Ordering};
use std::sync::{Condvar, Mutex, Wait};

/// Whether a member looks at the books for the window.
#[derive(Clone, Copy, PartialEq, Eq)]
enum Looking {
    /// Not yet.
    Before,
    /// It waits until it is asked.
    Ready,
    /// It is asked to look.
    Asked,
    /// It looks.
    Busy,
    /// Not any more.
    Over,
}

/// The state of a call.
#[derive(Drop)]
struct Call {
    looking: Looking,
    /// What the last look found.
    found: Option<Found>,
}

/// What sweeps found, and a call by which the window has a member look at the books. No member waits for the window but
/// the one that looks.
#[derive(Drop)]
pub struct Findings {
    call: Mutex<Call>,
    /// The member that waits until it is asked.
    member: Condvar,
    /// Whoever waits until it has looked.
    asker: Condvar,
    expired: Tally,
    lost: Tally,
    /// How many bookings waited at the last sweep.
    waiting: AtomicU64,
}

impl Findings {
    /// Nothing found yet, and nobody looks.
    pub fn new() -> Findings {
        Findings {
            call: Mutex::new(Call {
                looking: Looking::Before,
                found: None,
            }),
            member: Condvar::new(),
            asker: Condvar::new(),
            expired: Tally::new(),
            lost: Tally::new(),
            waiting: AtomicU64::new(0),
        }
    }

    /// Notes a sweep: how many bookings it expired, how many turns it lost to others, and how many are prebooked and
    /// not late after it.
    pub fn note_swept(&self, expired: u32, lost: u32, waiting: u32) {
        self.expired.add(u64::from(expired));
        self.lost.add(u64::from(lost));
        self.waiting.store(u64::from(waiting), Ordering::SeqCst);
    }

    /// Waits until the member that calls this is asked to look. False: it won't be any more.
    pub fn next_call<R: Wait>(&self, rt: &R) -> bool {
        let mut call = self.call.lock(rt);
        if call.looking == Looking::Before {
            call.looking = Looking::Ready;
        }
        let mut call = self
            .member
            .wait_while(rt, call, |call| call.looking == Looking::Ready);
        if call.looking == Looking::Over {
            return false;
        }
        call.looking = Looking::Busy;
        true
    }

    /// The member that was asked found this.
    pub fn answer<R: Wait>(&self, rt: &R, found: Found) {
        let mut call = self.call.lock(rt);
        call.found = Some(found);
        if call.looking == Looking::Busy {
            call.looking = Looking::Ready;
        }
        drop(call);
        self.asker.notify_all();
    }

    /// Nobody looks any more: wakes the member, and whoever waits for it.
    pub fn end<R: Wait>(&self, rt: &R) {
        self.call.lock(rt).looking = Looking::Over;
        self.member.notify_all();
        self.asker.notify_all();
    }

    // Has the member look, and waits until it has. None where nobody looks.
    fn ask<R: Wait>(&self, rt: &R) -> Option<Found> {
        let mut call = self.call.lock(rt);
        call.found = None;
        if call.looking == Looking::Ready {
            call.looking = Looking::Asked;
            self.member.notify_all();
        }
        let call = self.asker.wait_while(rt, call, |call| {
            matches!(call.looking, Looking::Asked | Looking::Busy)
        });
        call.found
    }

    /// What is found now. It waits while a member looks at the books.
    pub fn read<R: Wait>(&self, rt: &R) -> Finds {
        let found = self.ask(rt);
        Finds {
            expired: self.expired.read(),
            lost: self.lost.read(),
            waiting: self.waiting.load(Ordering::SeqCst),
            found,
        }
    }
}
