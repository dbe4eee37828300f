//! The files of a command, and how it ends. The catalogue is loaded from a shelf, with the export or the journal that
//! its books may open with; or it is said why there are no books. Each end has its status and its note, in one table
//! for all commands, and notes are written to a sink that may fail.
//!
//! `print_of` is a print of what the numbers of a catalogue's places mean, by which a journal's head says whose it is.
//!
//! It is a crate of its own, since it alone says what a command's files may be: their limits, what is read of them,
//! each fault with the count of the shelf that shows it, and the fault's note. Only here a status meets its note.
#![tactic(auto)]

mod ending;
mod file;
mod journal;
mod load;
mod note;
mod noting;
mod opening;
mod prints;

pub use ending::{CommandEnd, end_command};
pub use file::{File, LoadFault};
pub use journal::{JournalRefusal, RecoverFault, fold_books, recover_export};
pub use load::load_catalogue;
pub use note::{NotePlace, NoteText};
pub use opening::{import_from, load_books, open_books};
pub use prints::print_of;
