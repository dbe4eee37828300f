//! The ids of offers and of quotes, as retailers see them.
//!
//! An id spells all that the host needs to know of what it offered, so nothing is kept until it is booked. Each value
//! has one spelling. A reader gives a value exactly where the text is the spelling of one, and then that one; a writer
//! gives the spelling. No call takes memory.
#![tactic(auto)]

mod code;
mod exchange;
mod numbers;
mod offer;
mod refund;

pub use code::{ExchangeCode, MOST_PASSENGERS, Offer, OfferCode, RefundCode, VALID_SECONDS};
pub use exchange::{read_exchange, write_exchange};
pub use offer::{read_offer, write_offer};
pub use refund::{read_refund, write_refund};
pub use train_runs::Segment;
