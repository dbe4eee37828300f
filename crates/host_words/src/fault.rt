// Why there are no values.
ghost use Rattle.std.specs.Prelude.{◌≡◌};
ghost use Rattle.host_words.specs.declared.fault.WordsFault.TheVariants.{NoMemory};

use std::alloc::AllocError;

/// Why the words of a command give no values.
#[derive(Clone, Copy, PartialEq, Eq)]
pub enum WordsFault {
    /// They aren't words of the command: `clap` refuses them, a number is out of its range, or a moment is none.
    Refused,
    /// There was no memory to read them.
    NoMemory,
}

impl From<AllocError> for WordsFault {
    ghost from_gives = { λ _ fault. fault ≡ NoMemory };

    fn from(_: AllocError) -> WordsFault {
        WordsFault::NoMemory
    }
}
