//! The booking machine: what a booking is, which atomic step may come when, and what a legal history is.
//!
//! A booking stands in a row, where it is of a generation: each row serves one booking after another, and its present
//! one is that of the highest generation. A booking has an owner, a phase, items (spans at places), the words of its
//! row and an end. A state is a list of bookings. An entry is a desk's step: one atomic operation on one word of the
//! host's table. It is allowed in a state or it isn't, and an allowed one makes the next state. A history is a list of
//! entries, and legal where each is allowed after those before it. These definitions stand in `specs/`, and everything
//! above speaks of them.
//!
//! `list_host::ListHost` is the plain program that computes them. The functions of `laws` say what holds of every legal
//! history. No two live bookings share a place on a leg, and an owner alone changes what it owns. A booking's phases go
//! only forward, and of all turns from one phase the first decides. An ended booking has given back what it was sealed
//! with.
//!
//! Where to look in `specs/`: `Booking` and `Words` (bookings, and what the words hold), `Allowed` and `Apply` (which
//! step may come, and what it makes), `History`, `Laws` (well formed, no double). `Life` and `Phase` say how phases
//! lead on, and `WholeEnds` has an end as one value. `Looks`, `Quiet` and `Work` have steps that change a word, that
//! leave a row as it is, and what a desk makes or ends. There is also `Lists`; `Overall` and `Allows` name what the
//! laws and the list host say. Each number that code and definitions share (`most_items`, `row_words`, `host_legs`, ..)
//! is defined once there and stands once in the code, proved to be the same. Only `ListHost` takes memory.
#![tactic(auto)]

mod allowed;
mod applied;
pub mod booking;
pub mod entry;
pub mod laws;
pub mod list_host;
pub mod phase;
mod shown;
pub mod successor;
pub mod word;
