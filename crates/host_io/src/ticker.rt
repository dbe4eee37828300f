// Ticks by the clock of the system.
ghost use Rattle.std.specs.Prelude.{◌≡◌, ◌*◌, ◌+◌, option_map, true};

use crate::keeper::NoKeeper;
use crate::naps::Naps;
use crate::system_watch::SystemWatch;
use rail_io::{Keeper, Ticker};
use std::time;

/// How long it sleeps before it asks its keeper again.
const STEP_MILLISECONDS: u64 = 1_000;

/// Where it ticks, it has slept for the seconds. When it doesn't, no clause says: it is to tick for ever, or to end
/// within a second where its keeper has lost.
#[derive(Drop)]
pub struct SleepTicker<N: Naps + Drop, K: Keeper + Drop> {
    naps: N,
    keeper: K,
}

impl<C: time::Clock + Copy + Drop> SleepTicker<SystemWatch<C>, NoKeeper> {
    /// A ticker that sleeps by this clock, and is to tick for ever.
    pub fn new(clock: C) -> Self
        ensures clock { result.naps.clock ≡ clock }
    {
        SleepTicker::until_lost(clock, NoKeeper)
    }
}

impl<C: time::Clock + Copy + Drop, K: Keeper + Drop> SleepTicker<SystemWatch<C>, K> {
    /// A ticker that sleeps by this clock, and is to end once the keeper has lost.
    pub fn until_lost(clock: C, keeper: K) -> Self
        ensures clock { result.naps.clock ≡ clock }
        ensures keeper { result.keeper ≡ keeper }
    {
        SleepTicker {
            naps: SystemWatch { clock },
            keeper,
        }
    }
}

impl<N: Naps + Drop, K: Keeper + Drop> Ticker for SleepTicker<N, K> {
    // A tick comes after as many seconds as were asked for.
    ghost ticked = { λ t seconds ticked u. ticked ≡ true
        → N.slept u.naps ≡ option_map (λ before. before + seconds * 1000) (N.slept t.naps) };

    fn next_tick(&mut self, seconds: u32) -> bool {
        for _second in 0..seconds {
            if self.keeper.is_lost() {
                return false;
            }
            self.naps.sleep(STEP_MILLISECONDS);
        }
        !self.keeper.is_lost()
    }
}
