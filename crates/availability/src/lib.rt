//! Which places are free on legs of their run, as looks of this call show it.
//!
//! Each call looks at each piece of the legs at each place once, in the order of the list. What it answers is what
//! those looks showed: between two of them other desks may take and give.
//!
//! `place_states` takes its memory before the first look; the other two take none.
#![tactic(auto)]

mod looks;

pub use looks::{free_in_row, free_places, place_states};
