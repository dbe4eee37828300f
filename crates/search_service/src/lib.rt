//! What a retailer may ask of the whole timetable: offers of a wish, and the places of a run. It is a crate of its own
//! since nothing here is about one booking, and no other service needs it.
//!
//! Every answer is the defined reply of the command, by the desk's own entries in this very call, whatever other desks
//! do meanwhile. None of these commands takes a place: what is free is what this call's looks showed.
//!
//! Each call requires that nothing is out at the desk, and leaves it so; a tidy desk stays tidy.
#![tactic(auto)]

mod offer_search;
mod place_list;
mod place_numbers;
mod ranges;

pub use offer_search::search_offers;
pub use place_list::list_places;
