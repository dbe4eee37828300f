//! JSON (RFC 8259) as a tree whose texts stand in the text that was read.
//!
//! A tree is the value that `serde_json` gives to the same bytes, and its look-ups find what is found there. It has no
//! maps: the members of an object lie in one list in the order of the text, and of a name that comes twice the last is
//! found. Texts without escapes are not copied, and those with some lie in the `Scratch` that is lent to the reading,
//! which can be kept from one reading to the next.
//!
//! Where a tree of the whole would take too much, `read_outline` leaves the members of one name out, and `items_at`
//! hands out the list that such a member is, item by item.
//!
//! It is a crate of its own since catalogues and the bodies of requests are read by it alike.
//!
//! Memory is taken for a list for each array and each object, and for the `Scratch`. Running out of it is the one
//! answer that no definition determines.
#![tactic(auto)]

mod fault;
mod items;
mod number;
mod outline;
mod passing;
mod reading;
mod value;

pub use fault::ReadFault;
pub use items::{Items, items_at};
pub use json::Scratch;
pub use number::Number;
pub use outline::{Outline, read_outline};
pub use reading::read_value;
pub use value::Value;
