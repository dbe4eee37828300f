//! Bookings as a text: the export of a closed wall, and books that open with the bookings of an export.
//!
//! The text has a line for each booking that is kept, in rising row. What an export writes is read back as the same
//! bookings; a text that isn't right is refused with its first fault, by name and by line.
//!
//! It knows no catalogue, no file and no command. `line_text` has the form of a text, and writes and reads its fields.
//! `specs/Reads` has what a reader answers of a line, `Right` which bookings are right, `Imports` and `Exports` the
//! cause of each fault; `laws::exports_are_read_back` says that what was exported is imported as the same bookings.
#![tactic(auto)]

mod bookings;
mod draft;
mod export;
mod fault;
mod import;
pub mod laws;
mod line;
mod tidy;
mod wall_rows;

pub use export::export_text;
pub use fault::{ExportFault, ImportFault};
pub use import::import_books;
pub use line::{BookingLine, LineEnd, push_line, push_stub};
pub use tidy::export_tidy;
