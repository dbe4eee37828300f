//! Stations, and the runs of trains between them.
//!
//! A run stops at two to 127 stations, each once, and its times rise from stop to stop; between two neighbouring stops
//! lies a leg. `Runs` takes stations and runs one after the other, with the first fault of each named, and is as before
//! after a refusal. Then it only finds a station by its code, a run, the legs between two stations, and the departures
//! of a station from one moment to another. These departures are found by two binary searches, since `Runs` keeps a
//! list of its departures in order for each station.
//!
//! Here are also what a search asks for, a `TripWish`, and what trips are made of, a `Segment` of a run, so that
//! whoever reads or spells these doesn't stand on the search.
//!
//! Memory is taken while it is filled, and none when it is asked. `crosses` is the proof that threads may share it.
#![tactic(auto)]

mod crossing;
mod departure;
mod run;
mod runs;
mod segment;
mod station;
mod wish;

pub use crossing::crosses;
pub use departure::Departure;
pub use run::{MOST_STOPS, Run, RunFault, Stop};
pub use runs::{MOST_RUNS, Runs};
pub use segment::Segment;
pub use station::{MOST_STATIONS, StationFault};
pub use wish::TripWish;
