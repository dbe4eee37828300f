//! The rows of books as lines of a journal, by looks of a desk while the books sell.
//!
//! `push_marked_lines` writes the lines of the rows that are set in some marks, and of no others; `push_all_lines`
//! writes those of all rows. The first is to take the marks of all rows, and the other to leave them. That it takes
//! these, or any, and that each row is marked whose standing changed, no contract says: it is read and tested. A line
//! is the one that an export has for the row, byte for byte, by `cold_store`'s own writer. A desk that writes them only
//! looks: nothing of the books changes but the marks, and what the desk has out stays as it is.
//!
//! A line says what its looks showed. While other desks step, looks at two rows may be of two moments; lines of one
//! moment need that nobody changes a booking between the first look and the last.
//!
//! `export_rows` finds the same lines in the text of an export, whose books a journal begins with.
//!
//! `count_rows` counts the rows by their phase, and `count_sold` the sold places by their class, by looks alone.
//!
//! `specs/Looks` has what looks at rows show, `Lines` what is written of them, and `Quiet` when they are of one moment.
//! `Kept` has what of a row stays, `Cuts` what cuts fold to, `Told` what of an answer is there afterwards, `Exports`
//! which lines an export has, and `Counts` and `Sold` what a count is. `laws` says what holds of them.
#![tactic(auto)]

mod counts;
mod exports;
pub mod laws;
mod lines;
mod looks;
mod sold;

pub use counts::{RowCount, count_rows};
pub use exports::export_rows;
pub use lines::{push_all_lines, push_marked_lines};
pub use sold::{SoldCount, count_sold};
