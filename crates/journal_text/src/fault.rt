use std::alloc::AllocError;

/// Why a text gives no fold. The others exclude each other, and `NoMemory` may come with any text.
#[derive(Clone, Copy, Debug, PartialEq, Eq)]
pub enum JournalFault {
    /// The first line isn't that of a journal.
    NotAJournal,
    /// The line of a whole cut, both counted from 1, that is none or isn't in its place, or that is missing.
    WrongLine { cut: u64, line: u64 },
    /// The cut, counted from 1, that isn't whole or isn't the next, while a whole cut begins somewhere from there on.
    BrokenCut { cut: u64 },
    /// There was no memory for the fold.
    NoMemory,
}

impl From<AllocError> for JournalFault {
    ghost use Rattle.std.specs.Prelude.{◌≡◌};
    ghost use Rattle.journal_text.specs.declared.fault.JournalFault.TheVariants.{NoMemory};

    ghost from_gives = { λ _ fault. fault ≡ NoMemory };

    fn from(_: AllocError) -> JournalFault {
        JournalFault::NoMemory
    }
}
