//! What is found in the books of a host.
use row_cuts::{RowCount, SoldCount};

/// What looks at books showed.
#[derive(Clone, Copy)]
pub struct Found {
    pub rows: RowCount,
    pub sold: SoldCount,
}

/// What is found in the books of a host.
#[derive(Drop)]
pub struct Finds {
    /// Bookings that its sweeps expired.
    pub expired: u64,
    /// Late bookings that another turn decided before a sweep did.
    pub lost: u64,
    /// Bookings that the last sweep saw prebooked and not late.
    pub waiting: u64,
    /// What looks show now, where a member looks.
    pub found: Option<Found>,
}
