//! The text of an export's lines, field by field: numbers, letters, items and ends, as they are written and read.
//!
//! What is written at the end of a text, a reader takes from the front. `specs/Lines` has the form of a text, and
//! `Reads` what a reader answers of it.
//!
//! It knows no wall and no books. It is a crate of its own so that `journal_text`, whose cuts have the same fields, is
//! proved side by side with `cold_store`.
#![tactic(auto)]

mod ends;
mod heads;
mod letters;
mod reader;
mod writer;

pub use ends::{SaidEnd, SaidRow};
pub use heads::{Head, SaidItem};
pub use letters::letter_of;
pub use reader::Reader;
pub use writer::{
    push_amount, push_field, push_first_line, push_item, push_last_line, push_successor,
};
