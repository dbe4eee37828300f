//! Refunds and exchanges: quoted and carried out. It is a crate of its own: of all services it alone needs others, that
//! of bookings and that of coming to places.
//!
//! Every answer is the defined reply of the command, by the desk's own entries in this very call, whatever other desks
//! do meanwhile. A command that ends a booking has its whole answer ready before the exchange that decides.
//!
//! Each call requires that nothing is out at the desk, and leaves it so; a tidy desk stays tidy.
#![tactic(auto)]

mod exchanges;
mod refunds;

pub use exchanges::{accept_exchange_booking, quote_exchange_booking};
pub use refunds::{accept_refund_booking, quote_refund_booking};
