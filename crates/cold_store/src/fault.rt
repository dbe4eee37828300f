use std::alloc::AllocError;

/// Why a wall gives no export, the first of these that is so.
#[derive(Clone, Copy, Debug, PartialEq, Eq)]
pub enum ExportFault {
    /// The least row that is ending, or that is exchanged for a booking which isn't made yet.
    RowOpen { row: u32 },
    /// The least place that isn't taken just by live bookings.
    PlaceHeld { place: u32 },
    /// There was no memory for the text.
    NoMemory,
}

/// Why a text gives no books, the first of these that is so.
#[derive(Clone, Copy, Debug, PartialEq, Eq)]
pub enum ImportFault {
    /// The first line, from 1, with which no export begins.
    NotAnExport { line: u32 },
    /// The text is of other books: they have another number of places or rows.
    Sizes,
    /// The row of the first line whose booking can't stand in such books.
    RowWrong { row: u64 },
    /// The least place where two live bookings overlap.
    Overlap { place: u32 },
    /// The least row that is its own successor's.
    OwnSuccessor { row: u32 },
    /// There was no memory for the books.
    NoMemory,
}

impl From<AllocError> for ExportFault {
    ghost use Rattle.std.specs.Prelude.{◌≡◌};
    ghost use Rattle.cold_store.specs.declared.fault.ExportFault.TheVariants.{NoMemory};

    ghost from_gives = { λ _ fault. fault ≡ NoMemory };

    fn from(_: AllocError) -> ExportFault {
        ExportFault::NoMemory
    }
}

impl From<AllocError> for ImportFault {
    ghost use Rattle.std.specs.Prelude.{◌≡◌};
    ghost use Rattle.cold_store.specs.declared.fault.ImportFault.TheVariants.{NoMemory};

    ghost from_gives = { λ _ fault. fault ≡ NoMemory };

    fn from(_: AllocError) -> ImportFault {
        ImportFault::NoMemory
    }
}
