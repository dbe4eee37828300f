//! Exchanging a booking for a new one, by a quote.
//!
//! A quote says what the new booking, with the exchange fee, costs more than the old one is worth. It is checked first;
//! then the caller holds the places of the new booking, and the exchange itself is one turn of the old booking, which
//! names the new one as its successor. The new one is sealed and the old one ended only after that turn is won, so no
//! item is ever in neither.
//!
//! No call takes memory, and none waits: none is given anything to do it with.
//!
//! `ready_exchange` refuses in the order of refunds. `ExchangeReady` stands for a quote that was checked; it stays so
//! whatever others do (`laws::ready_stays`). An exchange has at most 103 entries. It alone of the crates that decide
//! touches the desk's hold.
#![tactic(auto)]

mod accepting;
mod copies;
mod differences;
mod laws;
mod quoting;
mod readying;

pub use accepting::{Exchanged, accept_exchange};
pub use laws::ready_stays;
pub use quoting::{QuotedExchange, quote_exchange};
pub use readying::{ExchangeReady, Readied, ready_exchange};
