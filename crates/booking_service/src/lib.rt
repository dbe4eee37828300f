//! A booking that is there: shown, confirmed, collected, released, or swept where it is late. It is a crate of its own,
//! so that its proofs stand beside those of coming to places.
//!
//! Every answer is the defined reply of the command, by the desk's own entries in this very call, whatever other desks
//! do meanwhile. A command that changes a booking has its whole answer ready before the exchange that decides, so that
//! lack of memory changes no booking's fate: it is answered 500, and what was held is given back.
//!
//! Each call requires that nothing is out at the desk, and leaves it so; a tidy desk stays tidy.
#![tactic(auto)]

mod deciding;
mod sweeping;

pub use deciding::{
    booking_answer, confirm_booking, fulfil_booking, release_booking, show_booking,
};
pub use sweeping::sweep_bookings;
