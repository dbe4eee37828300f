//! Looks at words.
ghost use Rattle.std.specs.Prelude.{◌<◌, length};
ghost use Rattle.leg_masks.specs.Interval.{halves};
ghost use Rattle.history_model.specs.Booking.{row_words};
ghost use Rattle.history_model.specs.declared.entry.Step.TheVariants.{Look, SawRow};
ghost use Rattle.claim_rule.specs.Desks.{IsOf, Stepped};

use crate::books::Books;
use crate::desk::Desk;
use history_model::word::Word;
use rail_ids::{PlaceNo, RowNo};
use std::marker::Brand;

impl Books {
    /// Looks at the word of a half of a place: half 0 has legs 0 to 62, half 1 legs 63 to 125.
    pub fn step_look(&self, desk: &mut Desk, place: PlaceNo, half: u8) -> u64
        requires own { IsOf self.now desk.old }
        requires place { place.0 < length self.now.layout.legs }
        requires half { half < halves }
        ensures own { IsOf self.now desk.new }
        ensures look { Stepped (Look place.0 half result) desk.old desk.new }
    {
        self.load_as::<Brand>(&mut desk.seat, Word::Place(place.0, half))
    }

    /// Looks at a word of a row. The generation is nothing to it.
    pub fn step_read(&self, desk: &mut Desk, row: RowNo, word: u8) -> u64
        requires own { IsOf self.now desk.old }
        requires row { (row.row < self.now.layout.rows) × (word < row_words) }
        ensures own { IsOf self.now desk.new }
        ensures look { Stepped (SawRow row.row word result) desk.old desk.new }
    {
        self.load_as::<Brand>(&mut desk.seat, Word::Row(row.row, word))
    }
}
