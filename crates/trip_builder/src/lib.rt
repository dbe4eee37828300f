//! The trips of a wish: how to go from one station to another with up to three trains.
//!
//! A trip is one to three segments on different runs. Each begins where the one before ended, after the change time of
//! the station and at most four hours later; the first departs within the wish's window. `trips` answers exactly the
//! first sixteen of all trips of the wish, by their last arrival, then the later first departure, then fewer segments,
//! then their runs and stops.
//!
//! How `search` keeps it short is no part of its contract, which gives the answer alone. Once sixteen trips are known,
//! it passes over what leaves too late by the shortest ride from there (`Shortest`). In a long search it has bounds
//! besides (`Bounds`): for rides (`Rides`), and for departures of stations (`Boards`), a moment before which no trip of
//! the wish comes to the destination from there. `Near` says which stations need no board. A bound that knows less
//! costs time and changes no answer.
#![tactic(auto)]

// The rules: what a trip is, and which stands first.
mod chain;
mod departures;
mod order;
mod trip;

// The search, which is behind `trips` alone.
mod ahead;
mod best;
mod board;
mod boards;
mod bounds;
mod ends;
mod found;
mod hints;
mod probe;
mod ranks;
mod reached;
mod rests;
mod rides;
mod search;
mod shortest;

pub use chain::are_connected;
pub use departures::{first_stop_of, last_stop_of};
pub use search::trips;
pub use train_runs::TripWish;
pub use trip::Trip;
