//! A hold, and the steps of its maker: start, take, give back the last item, note and seal.
ghost use Rattle.std.specs.Prelude.{◌≡◌, ◌≢◌, ◌<◌, ◌≤◌, length, None, IfNone, IfSome};
ghost use Rattle.leg_masks.specs.Interval.{IsClear};
ghost use Rattle.leg_masks.specs.Interval.{PlacedSpan as Item};
ghost use Rattle.history_model.specs.Booking.{most_items};
ghost use Rattle.history_model.specs.declared.entry.Step.TheVariants.{Give, Note, Seal};
ghost use Rattle.history_model.specs.Allowed.{IsMakerWord};
ghost use Rattle.claim_rule.specs.Holds.{IsHoldOf, IsItem, with_one};
ghost use Rattle.claim_rule.specs.Desks.{MayStep};
ghost use Rattle.claim_rule.specs.Seats.{CanTake, CanGive, CanNote, CanSeal, take_step, start_step};
ghost use Rattle.claim_rule.specs.Desks.{IsOf, Stepped};
ghost use Rattle.claim_rule.specs.Seats.{IsSeatOf, HasMade};
ghost use Rattle.claim_rule.specs.Out.{HoldsNone};
ghost use Rattle.claim_rule.specs.Starts.{HasStarted, MayExpect};
ghost use Rattle.claim_rule.specs.Takes.{HasTaken, HasMissed};

use crate::books::Books;
use crate::desk::Desk;
use crate::rule::View;
use arrayvec::ArrayVec;
use atomic_table::Seat;
use history_model::booking::{MOST_ITEMS, STANDING_WORD};
use history_model::entry::Step;
use history_model::phase::{Phase, row_word_of};
use history_model::word::Word;
use leg_masks::{Item, half_of, mask_of};
use rail_ids::RowNo;
use std::marker::{Brand, Model};

/// A booking of a desk in the making, by its row and generation, with the items that it has taken. It must be spent: by
/// `keep`, by a seal or by `leave`.
pub struct Hold {
    pub(crate) row: RowNo,
    pub(crate) items: ArrayVec<Item, MOST_ITEMS>,
}

impl Model for Hold {
    ghost use Rattle.claim_rule.specs.Holds.{HoldView};

    ghost Value = { HoldView };

    ghost view = { λ h. record { row = h.row; items = h.items.items } };
}

/// What a start answers: the hold of the row, or the word that was shown, which is another than the expected one.
pub enum Started {
    Won(Hold),
    Missed { shown: u64 },
}

impl Hold {
    /// The row in the making, with its generation.
    pub fn row(&self) -> RowNo
        ensures { result ≡ self.now.row }
    {
        self.row
    }

    /// The items held.
    pub fn items(&self) -> &[Item]
        ensures items { result.now ≡ self.now.items }
        ensures few { length result.now ≤ most_items }
    {
        self.items.as_slice()
    }

    /// Gives up the desk in the middle of this booking, without a step: the row stays in the making for good.
    pub fn leave(self, desk: Desk)
        requires hold { IsHoldOf desk self }
        requires other { desk.number ≢ 0 }
    {
        let _ = desk;
        let Hold { row: _, items: _ } = self;
    }
}

impl Books {
    /// A step that takes legs of a place, which lie in one half, or looks where the word of that half is another.
    pub fn step_take(
        &self,
        desk: &mut Desk,
        hold: &mut Hold,
        item: Item,
        expected: u64,
    ) -> Option<u64>
        requires own { IsOf self.now desk.old }
        requires hold { IsHoldOf desk.old hold.old }
        requires room { length hold.old.items < most_items }
        requires item { IsItem self.now.layout item }
        requires free { IsClear expected item.span }
        ensures own { IsOf self.now desk.new }
        ensures hold { IsHoldOf desk.new hold.new }
        ensures won { IfNone result (HasTaken item desk.old hold.old desk.new hold.new) }
        ensures missed { IfSome result (λ n. HasMissed item expected n desk.old hold.old desk.new hold.new) }
    {
        let found = self.take_at(&mut desk.seat, hold.row.row, &item, expected);
        if found != expected {
            return Some(found);
        }
        hold.items.push(item);
        None
    }

    fn take_at(&self, seat: &mut Seat<u64, View>, row: u32, item: &Item, expected: u64) -> u64
        requires own { IsSeatOf self.now self.now.layout seat.old }
        requires row { CanTake self.now.layout seat.old row }
        requires item { IsItem self.now.layout item.now }
        requires free { IsClear expected item.now.span }
        ensures { HasMade self.now.layout (take_step row item.now expected result) seat.old seat.new }
    {
        let taken = Step::Take {
            row,
            place: item.place,
            span: item.span,
        };
        let new = expected | mask_of(item.span);
        let at = Word::Place(item.place, half_of(item.span));
        self.exchange_as::<Brand>(seat, at, expected, new, taken)
    }

    /// Gives the hold's last item back.
    pub fn step_undo(&self, desk: &mut Desk, hold: &mut Hold)
        requires own { IsOf self.now desk.old }
        requires hold { IsHoldOf desk.old hold.old }
        requires some { 0 < length hold.old.items }
        ensures own { IsOf self.now desk.new }
        ensures hold { IsHoldOf desk.new hold.new }
        ensures given { Stepped (Give hold.old.row.row (length hold.new.items)) desk.old desk.new }
        ensures last { (i : Item) × (hold.old ≡ with_one hold.new i) }
    {
        let Some(item) = hold.items.pop() else {
            unreachable!()
        };
        let left = hold.items.len() as u8;
        self.undo_at(&mut desk.seat, hold.row.row, left, item);
    }

    pub(crate) fn undo_at(&self, seat: &mut Seat<u64, View>, row: u32, left: u8, item: Item)
        requires own { IsSeatOf self.now self.now.layout seat.old }
        requires row { CanGive self.now.layout seat.old row left item }
        ensures { HasMade self.now.layout (Give row left) seat.old seat.new }
    {
        let kept = !mask_of(item.span);
        let word = Word::Place(item.place, half_of(item.span));
        self.and_as::<Brand>(seat, word, kept, Step::Give { row, item: left });
    }

    /// Starts this generation of a row, where word 0 of the row is the expected one, or looks at that word.
    pub fn step_start(&self, desk: &mut Desk, row: RowNo, expected: u64) -> Started
        requires own { IsOf self.now desk.old }
        requires kept { desk.old.kept ≡ None }
        requires none { HoldsNone desk.old }
        requires row { row.row < self.now.layout.rows }
        requires expected { MayExpect row expected }
        ensures own { IsOf self.now desk.new }
        ensures started { HasStarted row expected desk.old desk.new result }
    {
        let found = self.start_at(&mut desk.seat, row, expected);
        if found != expected {
            return Started::Missed { shown: found };
        }
        self.marks.set(row.row);
        Started::Won(Hold {
            row,
            items: ArrayVec::new(),
        })
    }

    fn start_at(&self, seat: &mut Seat<u64, View>, row: RowNo, expected: u64) -> u64
        requires own { IsSeatOf self.now self.now.layout seat.old }
        requires row { row.row < self.now.layout.rows }
        requires expected { MayExpect row expected }
        ensures { HasMade self.now.layout (start_step row expected result) seat.old seat.new }
    {
        let making = row_word_of(Phase::Making, row.generation);
        let started = Step::Start {
            row: row.row,
            generation: row.generation,
        };
        self.exchange_as::<Brand>(
            seat,
            Word::Row(row.row, STANDING_WORD),
            expected,
            making,
            started,
        )
    }

    /// Notes a word of the hold's row.
    pub fn step_note(&self, desk: &mut Desk, hold: &mut Hold, word: u8, value: u64)
        requires own { IsOf self.now desk.old }
        requires hold { IsHoldOf desk.old hold.old }
        requires word { IsMakerWord word }
        ensures own { IsOf self.now desk.new }
        ensures hold { IsHoldOf desk.new hold.new × (hold.new ≡ hold.old) }
        ensures noted { Stepped (Note hold.old.row.row word value) desk.old desk.new }
    {
        self.note_at(&mut desk.seat, hold.row.row, word, value);
    }

    pub(crate) fn note_at(&self, seat: &mut Seat<u64, View>, row: u32, word: u8, value: u64)
        requires own { IsSeatOf self.now self.now.layout seat.old }
        requires row { CanNote self.now.layout seat.old row word }
        ensures { HasMade self.now.layout (Note row word value) seat.old seat.new }
    {
        let step = Step::Note { row, word, value };
        self.store_as::<Brand>(seat, Word::Row(row, word), value, step);
    }

    /// Seals the hold's booking.
    pub fn step_seal(&self, desk: &mut Desk, hold: Hold, phase: Phase) -> RowNo
        requires own { IsOf self.now desk.old }
        requires hold { IsHoldOf desk.old hold }
        requires ready { MayStep self.now.layout desk.old (Seal hold.row.row phase) }
        ensures own { IsOf self.now desk.new }
        ensures sealed { Stepped (Seal hold.row.row phase) desk.old desk.new }
        ensures row { result ≡ hold.row }
    {
        let Hold { row, items: _ } = hold;
        self.seal_at(&mut desk.seat, row, phase);
        self.marks.set(row.row);
        row
    }

    fn seal_at(&self, seat: &mut Seat<u64, View>, row: RowNo, phase: Phase)
        requires own { IsSeatOf self.now self.now.layout seat.old }
        requires ready { CanSeal self.now.layout seat.old.me.0.seen seat.old.me.0.number row phase }
        ensures { HasMade self.now.layout (Seal row.row phase) seat.old seat.new }
    {
        let making = row_word_of(Phase::Making, row.generation);
        let new = row_word_of(phase, row.generation);
        let sealed = Step::Seal {
            row: row.row,
            phase,
        };
        self.exchange_as::<Brand>(seat, Word::Row(row.row, STANDING_WORD), making, new, sealed);
    }
}
