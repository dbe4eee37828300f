//! The end of a booking, as a line says it.
ghost use Rattle.line_text.specs.Lines.{AreRowNumbers, AreSuccessorNumbers, IsAmountNumber, IsEndSaid, amount_field, end_fields, successor_field};
ghost use Rattle.line_text.specs.Reads.{Reads, row_field};

use crate::reader::Reader;
use history_model::phase::Phase;

/// A row and a generation; the numbers may be any.
#[derive(Clone, Copy, PartialEq, Eq)]
pub struct SaidRow {
    pub row: u64,
    pub generation: u64,
}

/// What a line says of an end: nothing where the booking hasn't ended.
#[derive(Clone, Copy, PartialEq, Eq)]
pub struct SaidEnd {
    pub amount: i128,
    pub moment: u64,
    pub successor: Option<SaidRow>,
}

impl<'a> Reader<'a> {
    // The amount that is the next field: `p` or `m` and a number, which after `m` isn't 0.
    fn amount(&mut self) -> Option<i128>
        ensures { Reads amount_field IsAmountNumber self.old.rest.now self.new.rest.now result }
    {
        if self.eat(b" p") {
            return Some(i128::from(self.number()?));
        }
        if !self.eat(b" m") {
            return None;
        }
        let size = self.number()?;
        if size == 0 {
            return None;
        }
        Some(-i128::from(size))
    }

    // The row and the generation that are the next field.
    fn row_said(&mut self) -> Option<SaidRow>
        ensures { Reads row_field AreRowNumbers self.old.rest.now self.new.rest.now result }
    {
        let row = self.field()?;
        let generation = self.part()?;
        Some(SaidRow { row, generation })
    }

    // The successor that is the next field: none, or its row and generation.
    fn successor(&mut self) -> Option<Option<SaidRow>>
        ensures { Reads successor_field AreSuccessorNumbers self.old.rest.now self.new.rest.now result }
    {
        if self.eat(b" -") {
            return Some(None);
        }
        Some(Some(self.row_said()?))
    }

    /// The end of a booking in this phase.
    pub fn end(&mut self, phase: Phase) -> Option<SaidEnd>
        ensures { Reads (end_fields phase) (IsEndSaid phase) self.old.rest.now self.new.rest.now result }
    {
        let Phase::Ended(_) = phase else {
            return Some(SaidEnd {
                amount: 0,
                moment: 0,
                successor: None,
            });
        };
        let amount = self.amount()?;
        let moment = self.field()?;
        let successor = self.successor()?;
        Some(SaidEnd {
            amount,
            moment,
            successor,
        })
    }
}
