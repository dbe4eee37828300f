// A watch, by which a connection measures how long its requests take.
ghost use Rattle.std.specs.Prelude.{◌≡◌, ℕ, Option, IfSome, IfOk};

use std::io;

/// Tells how many milliseconds have gone by since some time.
pub trait Watch {
    /// What the next look reads, where the watch tells it.
    ghost next: { Self → Option ℕ };

    /// Looks once.
    fn look(&mut self) -> io::Result<u64>
        ensures reads { IfSome (next self.old) (λ now. IfOk result (λ read. read ≡ now)) };
}
