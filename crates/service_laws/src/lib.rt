//! What a retailer may count on over several calls. It is a crate of its own since each of its facts follows from
//! contracts of several crates below, of which none stands on all.
//!
//! A sweep leaves no booking prebooked that was past its limit when the sweep began. For 900 seconds a refund quote
//! that was given is paid, and an exchange quote is found right, while the booking stays in the phase in which it was
//! quoted. That is for calls of its retailer that begin after all that the quoting desk had seen, under one catalogue,
//! by clocks that don't run back, and where there is memory. A desk is any desk here: the one that accepts need not be
//! the one that quoted. Each is said of the call that does it, and of the command with its reply.
//!
//! What a reply tells of a booking is so in what was seen by then. At any desk, each look of a later call that shows
//! the booking shows it in that phase or in one that follows.
//!
//! Each command is carried out within a number of steps that the catalogue, the moment and its order give, whatever
//! other desks do. rail_service says that of `perform`, and so it stands on this crate.
//!
//! The crate has definitions and laws alone: it does nothing when it runs.
//!
//! Where to look in `specs/`: `Begun` (which call begins after which), `Complete` (sweeps), `Honoured` (quotes),
//! `Commands` (the same of commands), `Told` (a booking that was told of), `Bounded` (how many steps a command has at
//! most). Where a call begins, `Complete` of expiry_sweeper defines.
#![tactic(auto)]

mod laws;

pub use laws::{
    calls_in_order, commands_are_bounded, exchange_quotes_are_honoured, refund_quotes_are_honoured,
    sweeps_are_complete, told_bookings_are_found, told_bookings_stand,
};
