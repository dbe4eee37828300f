//! The service of one connection, and where connections come from.
//!
//! A listener always tells its port, its limit and how many streams it has handed out, and counts its failures: it
//! answers `Failed` only where that count rose in the call, or stands at its last value. Each stream that it hands out
//! stands in a `Waiting`, which can't be dropped. Only `serve_waiting` and `spend_permitted`, which it calls, can spend
//! it; without memory they do nothing with it. `ListListener` stands in memory.
//!
//! `serve_connection` does nothing where there is no memory to begin with. It requires that the books have the
//! catalogue's places and rows, and that nothing is out at the desk; it has no premise about other desks.
//! `serve_permitted` and `spend_permitted` are for outlets that permit the next bytes of defined replies, by entries
//! that the desk may have. One that permits nothing else is handed nothing else at any moment, whether or not the call
//! returns. That it is so of other outlets too follows from their being generic, and is no clause.
//! `paths_name_resources` is the table of paths as a law.
//!
//! The clock is told of each command before it is done, whether it may change bookings, and gives after it the number
//! of the cut that the answer waits for. `unchanging_commands_look` says what a command does that isn't said to change
//! any.
#![tactic(auto)]

mod answering;
mod asking;
mod connection;
mod listener;
mod memory_listener;
mod parts;
mod performing;
mod reach;
mod refusal;
mod resource;
mod routing;
mod service;
mod waiting;

pub use connection::{serve_connection, serve_permitted};
pub use listener::{Accepted, Bound, Listener};
pub use memory_listener::ListListener;
pub use performing::perform;
pub use reach::unchanging_commands_look;
pub use resource::paths_name_resources;
pub use waiting::{Finished, Waiting, serve_waiting, spend_permitted};
