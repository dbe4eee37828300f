//! The places of all runs: what a coach adds, and which places a wish may have.
//!
//! Places are numbered from 0 over all runs, coaches and groups, in the order in which they were added. No two places
//! of a run have the same coach and number. `class_places` gives exactly the places of a run and a class, and
//! `candidates` those of them that have the traits of a wish. Contracts see a `PlaceMap` as the list of its places.
//!
//! `crosses` is the proof that threads may share it.
#![tactic(auto)]

mod class_numbers;
mod coach;
mod crossing;
mod map;
mod marks;

pub use coach::{Class, Coach, Group, Place, PlaceFault};
pub use crossing::crosses;
pub use map::PlaceMap;
