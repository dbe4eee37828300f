//! `drill`: many connections at once, from memory to memory, and what they come to.
//!
//! `run_drill` makes a catalogue and the requests of each worker out of its words. It serves each worker's requests as
//! one connection at a desk of its own and in a thread of its own, joins all desks, and prints one line of counts. It
//! promises that each connection was served as every connection is, whatever the other threads did. It also promises
//! that the finished books hold just these connections' entries, in one legal history, and that the line counts what
//! the books then hold and what the connections were answered. The words alone determine these counts, whatever the
//! threads did: on each leg as many places are sold as are asked for, or all of them; every other request is refused,
//! and none is answered busy.
//!
//! A drill is a large valid input made from a number: as many connections as the words say, each with as many requests
//! for one place on one leg of a run with eight. `Generator` in `specs/` defines the requests and the catalogue, and
//! `Totals` what is counted: the bookings sold, the requests refused, and the line that is printed. For 1 to 1,200
//! places the text is that of a catalogue that has all that the requests name (`FitsDrill`). That is proved of the text
//! (`catalogue_fits` in `proofs/Fitting`), so nothing is checked when a drill runs, and reading it fails for lack of
//! memory alone. `Parts` defines what a request adds to a history, and the law in `proofs/Law` says what a history of
//! such parts comes to: the same in every order.
#![tactic(auto)]

mod catalogue;
mod connection;
mod counts;
mod crew;
mod drill;
mod generator;
mod line;

pub use drill::{Cause, DrillEnd, run_drill};
pub use line::Totals;
