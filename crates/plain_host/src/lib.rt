//! What a service of one thread answers: a plain list of bookings, and what each command makes of it. It is a crate of
//! its own since no command is carried out by it: it says what a connection that is alone may count on.
//!
//! A desk that is alone at its books answers each command as this plain host does at the list of the desk's bookings,
//! and leaves the list that the plain host leaves. The crate has definitions and laws alone: it does nothing when it
//! runs.
//!
//! Lemmas by subject: `Standings`, `Changes`, `Shown`, `Staying`, `Decided`, `Commands`, `Sweeping`, `Sweeps` (a row's
//! booking among all, and the commands on it). The files whose names begin with `Places`, `BookingMade` and `OwnWork`
//! are on tries, rows, and items held and sealed. Then there are `Seeing`, `Trades`, `ExchangesMade`, `ExchangeLaws`
//! (quotes, refunds, exchanges).
#![tactic(auto)]

mod alone;
mod bookings;
mod places;

pub use alone::alone_is_lone;
pub use bookings::decisions_are_plain;
pub use places::{commands_are_plain, places_are_found, places_are_plain};
