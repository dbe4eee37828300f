// When it is time to sweep.
ghost use Rattle.std.specs.Prelude.{◌≡◌, ℕ, Bool};

/// Ticks, and ends at some time.
pub trait Ticker {
    /// That it was asked once for a tick, after that many seconds, and answered so: the ticker before it, the seconds,
    /// whether it ticked, and the ticker after it. Whoever knows nothing of a ticker but this trait can show that of it
    /// only by asking it, and only of the answer that it gave.
    ghost ticked: { Self → ℕ → Bool → Self → Type 0 };

    /// True at the next tick, for which it may wait about that many seconds. False ends the sweeping.
    fn next_tick(&mut self, seconds: u32) -> bool
        ensures ticked { ticked self.old seconds result self.new };
}

/// Ticks as often as it is told to, at once.
#[derive(Drop)]
pub struct CountTicker {
    /// How many ticks are left.
    pub left: u32,
}

impl Ticker for CountTicker {
    ghost use Rattle.std.specs.Prelude.{◌-◌, ◌<◌, ◌↔◌, true};

    ghost ticked = { λ t _ answer u. ((answer ≡ true) ↔ (0 < t.left)) × (u.left ≡ t.left - 1) };

    fn next_tick(&mut self, seconds: u32) -> bool
        ensures ticked { ((result ≡ true) ↔ (0 < self.old.left)) × (self.new.left ≡ self.old.left - 1) }
    {
        let _ = seconds;
        if self.left == 0 {
            return false;
        }
        self.left -= 1;
        true
    }
}
