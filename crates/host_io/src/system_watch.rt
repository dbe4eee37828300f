// The clock of the system as a watch, and what sleeps by it. They tell nothing.
ghost use Rattle.std.specs.Prelude.{◌≡◌, None};

use crate::naps::Naps;
use crate::watch::Watch;
use std::time::Duration;
use std::{io, thread, time};

/// The clock of the system, which never goes back.
#[derive(Clone, Copy, Drop)]
pub struct SystemWatch<C: time::Clock + Copy + Drop> {
    pub(crate) clock: C,
}

impl<C: time::Clock + Copy + Drop> Watch for SystemWatch<C> {
    ghost next = { λ _. None };

    fn look(&mut self) -> io::Result<u64> {
        let now = self.clock.monotonic()?;
        Ok(u64::try_from(now.as_millis()).unwrap_or(u64::MAX))
    }
}

impl<C: time::Clock + Copy + Drop> Naps for SystemWatch<C> {
    ghost slept = { λ _. None };

    fn sleep(&mut self, milliseconds: u64) {
        thread::sleep(&self.clock, Duration::from_millis(milliseconds));
    }
}
