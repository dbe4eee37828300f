//! Places for a hold: all that a booking asks for, or none.
//!
//! `add_places` goes through candidates in order and takes those that are free on all legs of a span, until as many are
//! won as were asked for. A span that lies in both halves of a place is taken piece by piece, and given back where the
//! second isn't won. What it answers has its cause in looks and takes of this very call. `abandon` gives every place of
//! a hold back.
//!
//! No call takes memory, and none waits: none is given anything to do it with.
//!
//! There are at most 20 entries for each candidate, and at most nine, and one note for each place won, where the span
//! lies in one half. `laws::contended_looks_have_causes`: between two neighbouring looks of a contended place another
//! desk changed that word.
#![tactic(auto)]

mod abandons;
mod adds;
mod laws;
mod tries;

pub use abandons::abandon;
pub use adds::{Added, add_places};
pub use laws::contended_looks_have_causes;
pub use tries::Outcome;
