//! Booking rows as a desk's calls see them: started, noted, sealed, kept, turned, read and closed.
//!
//! Each call says which entries of its own it adds to what its desk has seen, by its answer, and in which state it
//! leaves the desk's hold and ending. A row is started and turned by one compare and exchange on its phase word, so of
//! all turns of a booking from one phase the first decides.
//!
//! No call takes memory, and none waits: none is given anything to do it with.
//!
//! All searches of a desk for a row that was never used, also those that find none, have together at most one entry
//! for each row (`laws::searches_are_few`).
#![tactic(auto)]

mod holds;
pub mod laws;
mod notes;
mod swept;
mod turns;
mod views;

pub use holds::{keep_row, start_hold};
pub use notes::{Detail, Sealed, note_detail, note_item, seal};
pub use swept::Swept;
pub use turns::{Aim, Turned, close_end, turn};
pub use views::{EndView, RowView, look_row};
