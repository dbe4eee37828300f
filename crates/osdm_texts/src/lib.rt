//! What retailers are answered, as JSON texts: replies and problems. It is a crate of its own since services write
//! answers and read no request.
//!
//! Each reply and each problem has one JSON value, which the definitions give member by member; its text has no space,
//! and its members stand in byte order of their names. `reply_text` writes it in one growing buffer. Problems and the
//! counts of a sweep are small, and `small_text` and `swept_text` write them without memory.
#![tactic(auto)]

mod bookings;
mod reply;
mod swept;
mod written;

pub use osdm_parts::{FieldName, Problem, small_text};
pub use reply::{Reply, reply_text};
pub use swept::swept_text;
pub use written::{Success, Text, Written, write_prebooked, write_reply, write_swept};
