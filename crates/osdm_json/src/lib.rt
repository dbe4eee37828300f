//! What retailers ask, out of the path and the body of a request, and what they are answered.
//!
//! `read_command` reads the body of a route once, as JSON (RFC 8259), and answers the command that it asks, or the
//! first fault in the order of the route's fields. Ids and codes are read where they stand; one that is no spelling is
//! kept as none, since what it names is a question of the service. The texts of answers are those of `osdm_texts`.
#![tactic(auto)]

mod command;
mod fault;
mod members;
mod offers;
mod orders;
mod reader;
mod route;
mod spellings;
mod stretches;

pub use command::Command;
pub use fault::BodyFault;
pub use osdm_texts::{FieldName, Problem, Reply, reply_text, small_text, swept_text};
pub use reader::{BodyRoom, read_command, read_command_in};
pub use route::Route;
