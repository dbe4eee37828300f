//! What travel costs and what a refund pays: prices of segments, refunds of bookings, differences of exchanges.
//!
//! Amounts are whole minor units of the catalogue's one currency. Each function gives exactly its formula, with each
//! division rounded down. `Terms` holds only terms that a catalogue may have: refund steps that fall to 0, fees of at
//! most the whole amount. Nothing here takes memory.
//!
//! `crosses` is the proof that threads may share it.
#![tactic(auto)]

mod crossing;
mod fare;
mod prices;
mod terms;

pub use crossing::crosses;
pub use fare::Fare;
pub use prices::price;
pub use terms::{RefundStep, Terms, TermsFault, exchange_difference, refund_value};
