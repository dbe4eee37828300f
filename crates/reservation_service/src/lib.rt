//! Booking the places of an offer, or of one segment without an offer: a place for each passenger at each segment, all
//! or none. It is a crate of its own since a new booking and an exchange come to their places by it alike.
//!
//! Places are held first, segment by segment. Where one is short or contended, all that was held is given back before
//! the answer. The whole answer is ready before the booking is sealed, so lack of memory books nothing: it is answered
//! 500, and what was held is given back.
//!
//! Each call requires that nothing is out at the desk, and leaves it so; a tidy desk stays tidy. After another
//! placing than `Whole` the caller of `hold_places` abandons the hold.
#![tactic(auto)]

mod booking;
mod details;
mod holding;
mod wanting;

pub use booking::{Reservation, book_offer, new_view, reserve_places};
pub use details::detail_for;
pub use holding::{Held, Placing, hold_places};
