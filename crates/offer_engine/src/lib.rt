//! What a retailer asks for: the trips of a wish as offers, each with its price and with how many places are free.
//!
//! `offers` makes one offer for each trip, with counts that this call's own looks showed. Its id spells all that a
//! booking needs; `is_offered` says of such an id whether the catalogue has the trip.
#![tactic(auto)]

mod codes;
mod counts;
mod making;
mod wish;

pub use codes::is_offered;
pub use making::offers;
pub use wish::OfferWish;
