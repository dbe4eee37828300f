// What sleeps.
ghost use Rattle.std.specs.Prelude.{◌≡◌, ◌+◌, ℕ, Option, option_map};

/// Sleeps as long as it is told to.
pub trait Naps {
    /// How many milliseconds it has slept, where it tells them.
    ghost slept: { Self → Option ℕ };

    /// Sleeps for about so long.
    fn sleep(&mut self, milliseconds: u64)
        ensures slept { slept self.new ≡ option_map (λ before. before + milliseconds) (slept self.old) };
}
