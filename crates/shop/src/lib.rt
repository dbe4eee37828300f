//! What a service works with, and who asks it.
//!
//! It is a crate of its own so that the services stand beside each other on it, each with no more than it needs.
//!
//! A service answers `Result<Written, Problem>`: a text that was written in time, or the problem that stands in its
//! place. It names no head, no wire and no session; `rail_service` writes the head after the decision, since that
//! takes no memory.
#![tactic(auto)]

ghost use Rattle.std.specs.Prelude.{◌≡◌};
ghost use Rattle.catalogue_contents.specs.Contents.{legs_in};

use catalogue_contents::Catalogue;
use claim_rule::Books;
use rail_ids::RetailerNo;
use rail_time::Moment;
use std::alloc::Global;

/// What is sold: a catalogue, the books of its places and rows, and the memory that answers are written in.
#[derive(Clone, Copy)]
pub struct Shop<'s> {
    pub alloc: Global,
    pub cat: &'s Catalogue,
    pub books: &'s Books,
    pub ghost legs: { books.now.layout.legs ≡ legs_in cat.now },
    pub ghost rows: { books.now.layout.rows ≡ cat.now.rows },
}

/// A retailer that asks, and the moment of its command.
#[derive(Clone, Copy, PartialEq, Eq)]
pub struct Asker {
    pub retailer: RetailerNo,
    pub moment: Moment,
}
