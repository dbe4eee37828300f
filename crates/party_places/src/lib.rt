//! Places side by side, for a party that wants to sit together.
//!
//! `add_party` looks at the candidates in order for a stretch that is free: as many of them in a row as are wanted, all
//! in one coach, each with the number one above the one before. It takes the places of the first such stretch one by
//! one; where another desk was faster, it gives back what it won and goes on after the place that it lost. Where no
//! stretch is left it adds the first places that are free, as `add_places` does. What it answers has its cause in looks
//! and takes of this very call.
//!
//! No call takes memory, and none waits: none is given anything to do it with.
#![tactic(auto)]

mod party;
mod searches;
mod takes;

pub use party::{PartyAdded, add_party};
