//! The plain commands: those that one thread runs, over one connection or none. `run_plain` runs the one that the first
//! word names, and refuses the words of all others.
//!
//! It is a crate of its own since none of them knows of a listener or of `serve`.
#![tactic(auto)]

mod plain;

pub use plain::run_plain;
