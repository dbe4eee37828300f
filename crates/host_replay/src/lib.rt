//! `replay` and `export`: a catalogue, served to the input as one connection, at one desk, by the clock that the words
//! set. Its books open with no booking, or with those of an export. And `settle`, which serves nobody: a catalogue and
//! an export, and the settlement table of the bookings that books of the catalogue open with. And `recover`, which
//! reads a catalogue and a journal of a host with it.
//!
//! The promise of `replay` is that the bytes written are the defined replies to the requests of the bytes read, and
//! that they are those of a host of one thread that begins with these bookings. `export` writes the bookings that such
//! a host has at the end, as the text that a later one may open with. `settle` writes the settlement table of the
//! closed wall of its books, at whose table nothing was done, for the texts that the shelf gave. It writes nothing else
//! and reads no input. `recover` writes the export of the bookings that the journal has after its last whole cut, once
//! books of the catalogue have opened with it.
#![tactic(auto)]

mod command;
mod end;
mod export;
mod recover;
mod recover_end;
mod settle;
mod settle_end;

pub use command::run_replay;
pub use end::ReplayEnd;
pub use export::run_export;
pub use recover::run_recover;
pub use recover_end::RecoverEnd;
pub use settle::run_settle;
pub use settle_end::SettleEnd;
