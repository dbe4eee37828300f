//! What the catalogue alone says of an offer's segments: what they cost, and whether its runs have them.
//!
//! It stands below the search, so that those who book or exchange an offer stand on its price and not on how offers are
//! found.
#![tactic(auto)]

mod prices;

pub use prices::price_of_offer;
