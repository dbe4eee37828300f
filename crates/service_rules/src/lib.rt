//! What each command of a retailer does and is answered, as one definition, and what a command is refused for before it
//! does anything. It is a crate of its own since the plain host and the service of connections have to mean the same by
//! a command.
//!
//! A command becomes an order once: its ids and codes are read and checked, and what is left is what its service takes.
//! A command whose ids and codes are no spellings, or are of no offer of the catalogue, or are too old at the moment of
//! the command, is refused by these alone: no booking and no place is looked at.
#![tactic(auto)]

mod checks;
mod order;

pub use checks::order_of;
pub use order::Order;
