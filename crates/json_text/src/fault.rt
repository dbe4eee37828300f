ghost use Rattle.std.specs.Prelude.{◌≡◌};
ghost use Rattle.json_text.specs.declared.fault.ReadFault.TheVariants.{NotJson, NoMemory};

use std::alloc::{AllocError, AllocFailed};

/// Why bytes have no value.
#[derive(Clone, Copy, PartialEq, Eq, Drop)]
pub enum ReadFault {
    /// They are no JSON in UTF-8, nest deeper than 127 or have a number that is too large for a float.
    NotJson,
    /// Want of memory.
    NoMemory,
}

impl From<json::Invalid> for ReadFault {
    ghost from_gives = { λ _ e. e ≡ NotJson };

    fn from(_invalid: json::Invalid) -> ReadFault {
        ReadFault::NotJson
    }
}

impl From<AllocError> for ReadFault {
    ghost from_gives = { λ _ e. e ≡ NoMemory };

    fn from(_refused: AllocError) -> ReadFault {
        ReadFault::NoMemory
    }
}

impl<T: Drop> From<AllocFailed<T>> for ReadFault {
    ghost from_gives = { λ _ e. e ≡ NoMemory };

    fn from(_refused: AllocFailed<T>) -> ReadFault {
        ReadFault::NoMemory
    }
}
