//! Ending bookings whose limit of confirmation has passed.
//!
//! A sweep looks at every row. A row that it saw prebooked with a limit before now it turns by one exchange, so that a
//! confirmation that comes first wins; and it gives all legs of each row that it expired back. It is complete: no
//! booking that was late when it began is prebooked when it has ended.
//!
//! No call takes memory, and none waits: none is given anything to do it with.
//!
//! A sweep has at most 105 entries for each row.
#![tactic(auto)]

mod rows;
mod sweeps;

pub use booking_rows::Swept;
pub use sweeps::sweep;
