//! What only a caller inside can see, by public calls of crates of every layer: crews at work, devices of memory,
//! and calls that no run of the program makes. A crate of its own, so that the crates that it tests are proved once,
//! without tests. What a run shows is tried by `tests/cases`, `tests/adapters`, `tests/host` and `tests/journal`
//! instead, which cost no proof.
//!
//! - `crews`: members run at the same time (the first one's turn waits for the second's); each takes its turns up to
//!   its own end, with the gate's calls round each; one member alone, and none.
//! - `calls`: a command that is read with memory of its own, as the program never reads one.
//! - `held`: bytes that an outbox holds back go out in order when they are sent, and not before; what a sink failed to
//!   take stays held.
//! - `memory`: a shelf and a journal of memory, which no command has, give what was put there.
//! - `port`: a stream that is made ready sends without delay and has its time limits.
//! - `strict`: a session into an outlet that permits just the next of the defined answers, which is proved. The test
//!   shows that it gets them all.
#![tactic(auto)]

#[cfg(test)]
mod calls;
#[cfg(test)]
mod crews;
#[cfg(test)]
mod held;
#[cfg(test)]
mod memory;
#[cfg(test)]
mod port;
#[cfg(test)]
mod strict;
