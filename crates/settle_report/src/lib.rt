//! What each retailer sold, out of the rows of a closed wall: a table of comma-separated values, with a record for each
//! retailer.
//!
//! It is a crate of its own since money is summed here alone, and nothing that sells stands on it.
#![tactic(auto)]

mod account;
mod rows;
mod table;

pub use account::Account;
pub use table::settlement;
