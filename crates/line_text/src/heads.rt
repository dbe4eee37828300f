//! The fields of a booking's line before its end.
ghost use Rattle.line_text.specs.Lines.{AreItemNumbers, HasLetter, item_field, phase_field};
ghost use Rattle.line_text.specs.Reads.{IsHeadSaid, Reads, head_fields};

use crate::letters::phase_of_letter;
use crate::reader::Reader;
use history_model::phase::Phase;

/// What a line says of an item; the numbers may be any.
#[derive(Clone, Copy, PartialEq, Eq)]
pub struct SaidItem {
    pub place: u64,
    pub from: u64,
    pub to: u64,
}

/// The fields of a line before its items.
#[derive(Clone, Copy)]
pub struct Head {
    pub row: u64,
    pub generation: u64,
    pub phase: Phase,
    pub retailer: u64,
    pub limit: u64,
    pub total: u64,
    pub count: u64,
}

impl<'a> Reader<'a> {
    // The letter that is the next field.
    fn phase(&mut self) -> Option<Phase>
        ensures { Reads phase_field HasLetter self.old.rest.now self.new.rest.now result }
    {
        if !self.eat(b" ") {
            return None;
        }
        let (letter, more) = self.rest.split_first()?;
        let phase = phase_of_letter(*letter)?;
        self.rest = more;
        Some(phase)
    }

    /// The fields before the items.
    pub fn head(&mut self) -> Option<Head>
        ensures { Reads head_fields IsHeadSaid self.old.rest.now self.new.rest.now result }
    {
        if !self.eat(b"row") {
            return None;
        }
        let (row, generation) = self.fields()?;
        let phase = self.phase()?;
        let (retailer, limit) = self.fields()?;
        let (total, count) = self.fields()?;
        Some(Head {
            row,
            generation,
            phase,
            retailer,
            limit,
            total,
            count,
        })
    }

    /// The item that is the next field.
    pub fn item(&mut self) -> Option<SaidItem>
        ensures { Reads item_field AreItemNumbers self.old.rest.now self.new.rest.now result }
    {
        let place = self.field()?;
        let from = self.part()?;
        let to = self.part()?;
        Some(SaidItem { place, from, to })
    }
}
