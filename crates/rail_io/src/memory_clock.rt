// Clocks whose readings are known.
ghost use Rattle.std.specs.Prelude.{◌≡◌, ◌≤◌, length};

use crate::{Clock, Reach};
use rail_time::Moment;
use std::marker::Model;

/// A clock by a script: its readings go up by the same number of seconds, and stop at the last moment.
#[derive(Clone, Copy, PartialEq, Eq)]
pub struct ScriptClock {
    /// The next reading.
    pub next: Moment,
    /// By how many seconds each further one is later.
    pub tick: u32,
}

impl Clock for ScriptClock {
    ghost use Rattle.std.specs.Prelude.{Some};
    ghost use Rattle.rail_io.specs.Clocks.{script_reading};

    ghost told = { λ c. Some (script_reading c.next c.tick) };

    #[tactic(auto, using(crate::proofs::Clocks::script_moves))]
    fn now(&mut self) -> Moment {
        let reading = self.next;
        let _in_years = reading.seconds();
        self.next = reading.later(self.tick);
        reading
    }

    #[inline(always)]
    fn begin(&mut self, reach: Reach) {
        let _ = reach;
    }

    #[inline(always)]
    fn end(&mut self) -> u64 {
        0
    }
}

/// A clock with listed readings, of which it repeats the last for good.
#[derive(Drop)]
pub struct ListClock {
    readings: Vec<Moment>,
    at: usize,
}

impl Model for ListClock {
    ghost use Rattle.std.specs.Prelude.{ℕ, ◌<◌, List, drop, length};

    ghost Value = { List ℕ };

    ghost view = { λ c. drop c.at c.readings.items };

    ghost invariant = { λ c. c.at < length c.readings.items };
}

impl ListClock {
    /// A clock with these readings, of which there is one at least.
    pub fn new(readings: Vec<Moment>) -> ListClock
        requires some { 1 ≤ length readings.items }
        ensures readings { result ≡ readings.items }
    {
        ListClock { readings, at: 0 }
    }
}

impl Clock for ListClock {
    ghost use Rattle.std.specs.Prelude.{Some};
    ghost use Rattle.rail_io.specs.Clocks.{listed_reading};

    ghost told = { λ c. Some (listed_reading c) };

    fn now(&mut self) -> Moment {
        let reading = self.readings[self.at];
        if self.at + 1 < self.readings.len() {
            self.at += 1;
        }
        reading
    }

    #[inline(always)]
    fn begin(&mut self, reach: Reach) {
        let _ = reach;
    }

    #[inline(always)]
    fn end(&mut self) -> u64 {
        0
    }
}
