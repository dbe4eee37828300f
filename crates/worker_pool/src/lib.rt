//! Workers on desks of their own, each in a thread of its own where threads can be made.
//!
//! A `Member` is a worker and its desk. `run_workers` runs each member's turns until one answers that its
//! worker has ended. It promises that each member's turns followed one another on its own desk, whatever the
//! other threads do. Where no thread can be made, members run one after another. It waits for its members.
//! No clause says that threads are made, that members run side by side, or when they end.
//!
//! `run_crew` has a first desk join those of all members but the first, once they have run. What the members have
//! counted in a ledger (`Gives`) goes into one share.
//!
//! It is a crate of its own since it knows threads and desks, and nothing of what the members do there.
//!
//! `Gate` has calls round each turn, of which no clause speaks; `Open` does nothing there. `proofs/Chains`: what
//! holds of no turn, of one, and of one run followed by another, holds of the whole run.
#![tactic(auto)]

mod gate;
mod giving;
mod meeting;
mod member;
mod running;
mod worker;

pub use gate::{Gate, Open};
pub use giving::Gives;
pub use meeting::run_crew;
pub use member::Member;
pub use running::run_workers;
pub use worker::{TurnEnd, Worker};
