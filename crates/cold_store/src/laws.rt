//! What holds of every export, as the contract of a function that does nothing.

ghost use Rattle.cold_store.specs.Laws.{ExportsAreReadBack};

/// What an export writes is read back, where the legs and the number of rows are the same: as the bookings that are
/// kept, and with no fault but lack of memory. So it is for books that began empty and for those that began with an
/// export.
pub fn exports_are_read_back()
    ensures { ExportsAreReadBack }
{}
