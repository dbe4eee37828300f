//! The catalogue: all that is sold, read once from a JSON file and then only asked.
//!
//! `read_catalogue` answers a catalogue exactly for a text of the format, with exactly its contents, and else the first
//! fault in the order of the format, with the path of the member at fault. `Format` in `specs/` defines both, member by
//! member in the order in which they are tried. What a `Catalogue` is asked stands in `catalogue_contents`, so that
//! whoever only asks it doesn't stand on its reader.
#![tactic(auto)]

mod coaches;
mod fault;
mod json;
mod reader;
mod retailers;
mod runs;
mod stations;
mod steps;
mod stops;

pub use catalogue_contents::Catalogue;
pub use fault::CatalogueFault;
pub use json::{list_of, whole_in, whole_or};
pub use reader::read_catalogue;
