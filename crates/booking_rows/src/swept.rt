//! The counts of a sweep over all rows. They stand beside the views of a row, so that what writes them needs no sweep.

/// What a sweep did, in rows.
#[derive(Clone, Copy, PartialEq, Eq)]
pub struct Swept {
    /// Seen prebooked with a limit before now, and expired by this sweep: all legs are given back.
    pub expired: u32,
    /// Seen so, and decided by another turn first.
    pub lost: u32,
    /// Seen prebooked, with a limit not before now.
    pub waiting: u32,
}
