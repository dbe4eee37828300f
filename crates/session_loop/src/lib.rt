//! One connection: its requests are read, answered and written in turn, until an end.
//!
//! A `Responder` says how a request is answered. `run_session` promises that the bytes written are the answers of the
//! requests that the connection's bytes spell, each request answered once, in order, and last the answer to a wire
//! fault where one stands after them. A write fault ends a session in the middle of an answer. Each end has its cause
//! in the bytes, or in a count of faults that rose, or stands at its last value.
//!
//! The answers go into an `Outlet`, which says what may be handed to it next, and each call of it has to keep to that.
//! `run_permitted` asks of it only that it permits the next bytes of the defined answers. So, into an outlet that
//! permits these alone, no others are handed at any moment, also in a session that never ends. Every sink is an outlet
//! that permits all: of a sink the clauses say what was written where the session ends.
//!
//! An answer may have the number of a cut of the bookings. `run_permitted` tells the outlet of it before the first byte
//! of that answer.
//!
//! `proofs/Views`: a session seen through a view of its responder; `proofs/Keeping`: what every answer keeps, the
//! session keeps.
#![tactic(auto)]

mod end;
mod outlet;
mod responder;
mod session;
mod writing;

pub use end::ConnEnd;
pub use outlet::Outlet;
pub use responder::Responder;
pub use session::{run_permitted, run_session};
pub use writing::write_all;
