//! A desk, the empty row that it keeps, and how far it knows the rows to be taken.
ghost use Rattle.std.specs.Prelude.{◌≡◌, ◌≤◌, [], Some, None, IfNone, IfSome};
ghost use Rattle.claim_rule.specs.Rule.{BooksView};
ghost use Rattle.claim_rule.specs.Holds.{IsHoldOf, empty_hold};
ghost use Rattle.claim_rule.specs.Desks.{IsOf, AreTaken};
ghost use Rattle.claim_rule.specs.Out.{IsHolding, HoldsNone};

use crate::hold::Hold;
use crate::rule::View;
use arrayvec::ArrayVec;
use atomic_table::Seat;
use rail_ids::RowNo;
use std::marker::Model;

/// A caller's token on the one table. Contracts see its number, what it has seen, and which desks it parted and
/// joined.
#[derive(Drop)]
pub struct Desk {
    pub(crate) seat: Seat<u64, View>,
    pub(crate) kept: Option<RowNo>,
    pub(crate) past: u32,
}

impl Model for Desk {
    ghost use Rattle.claim_rule.specs.Rule.{DeskView};
    ghost use Rattle.claim_rule.specs.Seats.{desk_view, IsAtRest};

    ghost Value = { DeskView };

    ghost view = { λ d. desk_view d.seat d.kept d.past };

    ghost invariant = { λ d. IsAtRest d.seat };
}

impl Desk {
    /// The first row that the desk has not seen taken yet.
    pub fn past(&self) -> u32
        ensures { result ≡ self.now.past }
    {
        self.past
    }

    /// Remembers that no row below this one is free. None of them is ever free again.
    pub fn pass(&mut self, row: u32)
        requires taken { AreTaken self.old row }
        requires further { self.old.past ≤ row }
        requires within { row ≤ self.old.layout.rows }
        ensures past { self.new ≡ record self.old { past = row } }
        ensures own { (books : BooksView) → IsOf books self.old → IsOf books self.new }
    {
        self.past = row;
    }

    /// Puts an empty row by.
    pub fn keep(&mut self, hold: Hold)
        requires hold { IsHoldOf self.old hold }
        requires empty { hold.items ≡ [] }
        ensures kept { self.new ≡ record self.old { kept = Some hold.row } }
        ensures own { (books : BooksView) → IsOf books self.old → IsOf books self.new }
    {
        let Hold { row, items: _ } = hold;
        self.kept = Some(row);
    }

    /// Takes the empty row back, where one is kept.
    pub fn kept(&mut self) -> Option<Hold>
        ensures kept { self.new ≡ record self.old { kept = None } }
        ensures own { (books : BooksView) → IsOf books self.old → IsOf books self.new }
        ensures none { IfNone result (self.old.kept ≡ None) }
        ensures some { IfSome result (λ hold. (self.old.kept ≡ Some hold.row) × (hold ≡ empty_hold hold.row)) }
        ensures holding { (b : BooksView) → IsOf b self.old → HoldsNone self.old → IfSome result (IsHolding self.new) }
    {
        let row = self.kept?;
        self.kept = None;
        Some(Hold {
            row,
            items: ArrayVec::new(),
        })
    }
}
