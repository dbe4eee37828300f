//! A journal as a text: the cuts that are written while books sell, and their fold, which is an export's text.
//!
//! The first line has a version, the numbers of places and rows, and a print: 64 hex digits that say what the numbers
//! mean. Cuts follow, numbered from 1. A cut has the lines of the rows that changed, as an export writes them, the sum
//! of the cut before it, and a sum of its own. The last line of each row is what the row is.
//!
//! It knows no file and no command, and of a line only its row. `specs/Texts` has the form of a text, `Folds` what its
//! fold is, `Faults` the cause of each fault; `laws::cuts_are_folded_back` says that what was written of at most
//! 262,144 rows, with its lines in their places, is folded back.
#![tactic(auto)]

mod cut;
mod fault;
mod folded;
mod head;
pub mod laws;
mod lines;
mod reader;
mod sum;
mod writer;

pub use fault::JournalFault;
pub use folded::{Folded, fold};
pub use sum::Sum;
pub use writer::{push_cut, push_head};
