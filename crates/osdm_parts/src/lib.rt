//! The parts that answers are put together from, as JSON texts: members, offers, quotes, places, reservations and
//! problems. They stand below `osdm_texts` since they need no row of a booking.
//!
//! A `put` function puts the tokens of one value or member after what a writer holds. Problems are small, and
//! `small_text` writes one without memory.
#![tactic(auto)]

mod field;
mod ids;
mod members;
mod offers;
mod pieces;
mod places;
mod problem;
mod quotes;
mod reservations;
mod small;
mod spots;

pub use field::FieldName;
pub use members::{put_amount, put_booking_id, put_flag, put_price, put_text, put_time};
pub use offers::put_offers;
pub use pieces::{push, push_number};
pub use places::places_text;
pub use problem::{Problem, phase_text};
pub use quotes::{put_exchange, put_refund};
pub use reservations::{places_are_shown_once, put_reservations};
pub use small::small_text;
pub use spots::run_places;
