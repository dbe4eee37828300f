//! `tiny`: one run with numbered places, sold by stretches over one connection.
//!
//! Its promise is that the bytes written are those of a host of one thread on the requests of the bytes read. That host
//! is a list of reserved places and spans: each request is given the least place that is free on its legs, or is
//! refused. The program keeps no such list: it takes places on atomic words, by the calls of every service, at a desk
//! that is alone.
//!
//! It is a crate of its own, since it shares no rule with the other commands: it has no catalogue, no retailer and no
//! clock.
#![tactic(auto)]

mod command;
mod json;
mod problem;
mod refusal;
mod reply;
mod responder;
mod run;
mod tiny;
mod wish;

pub use command::run_tiny;
