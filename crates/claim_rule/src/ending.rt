//! A turn of a row's phase, and the steps of an ending's owner: read the items, give them back, note the end, close.
ghost use Rattle.std.specs.Prelude.{◌≡◌, ◌≢◌, ℕ, ◌<◌, length, ◌≤◌, ◌+◌, true, false, IfNone, IfSome};
ghost use Rattle.leg_masks.specs.Interval.{Interval, IsItemOf};
ghost use Rattle.history_model.specs.Booking.{most_items, standing_word};
ghost use Rattle.history_model.specs.declared.phase.EndKind.{EndKind};
ghost use Rattle.history_model.specs.declared.phase.Phase.TheVariants as phase;
ghost use Rattle.history_model.specs.declared.entry.Step.TheVariants.{Give, Note, Close};
ghost use Rattle.history_model.specs.declared.word.Word.TheVariants.{Row};
ghost use Rattle.history_model.specs.Allowed.{IsEndWord};
ghost use Rattle.history_model.specs.WholeEnds.{end_at};
ghost use Rattle.claim_rule.specs.Rule.{Found};
ghost use Rattle.claim_rule.specs.Endings.{IsEndingOf, items_read, end_word as end_word_of};
ghost use Rattle.claim_rule.specs.Turns.{HasTurned, IsTurned, IsTurnLost, IsTurnedTo};
ghost use Rattle.claim_rule.specs.Desks.{CanTurn, MayStep};
ghost use Rattle.claim_rule.specs.Seats.{CanClose, IsTurning, turn_step_from};
ghost use Rattle.claim_rule.specs.Desks.{IsOf, Stepped, AddsSteps};
ghost use Rattle.claim_rule.specs.Seats.{IsSeatOf, HasMade};
ghost use Rattle.claim_rule.specs.Out.{EndsNone};

use crate::books::Books;
use crate::desk::Desk;
use crate::rule::View;
use arrayvec::ArrayVec;
use atomic_table::Seat;
use history_model::booking::{
    COUNT_WORD, END_AMOUNT_WORD, END_SUCCESSOR_WORD, End, FIRST_ITEM_WORD, MOST_ITEMS,
    STANDING_WORD,
};
use history_model::entry::Step;
use history_model::phase::{EndKind, Phase, amount_word_of, row_word_of};
use history_model::word::Word;
use leg_masks::{Item, read_item};
use rail_ids::RowNo;
use std::marker::{Brand, Model};

/// A booking that a desk is ending, by its row and generation, with the items that it gives back once they are read. It
/// must be spent, by a close or by `leave`.
pub struct Ending {
    pub(crate) row: RowNo,
    pub(crate) kind: EndKind,
    pub(crate) end: End,
    pub(crate) items: ArrayVec<Item, MOST_ITEMS>,
    pub(crate) given: u8,
    pub(crate) read: bool,
}

impl Model for Ending {
    ghost use Rattle.std.specs.Prelude.{◌≤◌, length};
    ghost use Rattle.claim_rule.specs.Endings.{EndingView};

    ghost Value = { EndingView };

    ghost view = { λ e. record {
      row = e.row;
      kind = e.kind;
      end = e.end;
      items = e.items.items;
      given = e.given;
      read = e.read;
    } };

    ghost invariant = { λ e. e.given ≤ length e.items.items };
}

/// What a turn answers: it is made, and leaves an ending where it is one to an ending; or the word shown was not that
/// of `from` and the generation.
pub enum StepTurned {
    Won,
    Ending(Ending),
    Missed { shown: u64 },
}

/// The item of a word that is one.
pub fn item_of(word: u64) -> Item
    requires item { (place : ℕ) × (span : Interval) × IsItemOf place span word }
    ensures item { IsItemOf result.place result.span word }
{
    match read_item(word) {
        Some(item) => item,
        None => unreachable!(),
    }
}

// What a turn that was made answers.
fn turned_to(row: RowNo, to: Phase, end: End) -> StepTurned
    ensures { IsTurnedTo row to end result }
{
    match to {
        Phase::Ending(kind) => StepTurned::Ending(Ending {
            row,
            kind,
            end,
            items: ArrayVec::new(),
            given: 0,
            read: false,
        }),
        _ => StepTurned::Won,
    }
}

impl Ending {
    /// The row that is ending, with its generation.
    pub fn row(&self) -> RowNo
        ensures { result ≡ self.now.row }
    {
        self.row
    }

    /// How many items are not given back yet.
    pub fn left(&self) -> u8
        ensures left { result + self.now.given ≡ length self.now.items }
        ensures few { self.now.given ≤ length self.now.items }
    {
        self.items.len() as u8 - self.given
    }

    /// Gives up the desk in the middle of this ending, without a step: the row stays in the ending for good.
    pub fn leave(self, desk: Desk)
        requires ending { IsEndingOf desk self }
        requires other { desk.number ≢ 0 }
    {
        let _ = desk;
        let Ending {
            row: _,
            kind: _,
            end: _,
            items: _,
            given: _,
            read: _,
        } = self;
    }

    /// The end word of this number.
    pub fn end_word(&self, word: u8) -> u64
        requires { IsEndWord word }
        ensures { result ≡ end_word_of self.now.kind self.now.end word }
    {
        if word == END_SUCCESSOR_WORD {
            return self.end.successor;
        }
        if word == END_AMOUNT_WORD {
            return amount_word_of(self.kind, self.end.amount);
        }
        self.end.moment
    }
}

impl Books {
    /// Turns the phase of a booking, or is shown another word of its row.
    pub fn step_turn(
        &self,
        desk: &mut Desk,
        row: RowNo,
        from: Phase,
        to: Phase,
        moment: u64,
        amount: i64,
        successor: u64,
    ) -> StepTurned
        requires own { IsOf self.now desk.old }
        requires turn { CanTurn self.now.layout desk.old.seen desk.old.number row from to
            (end_at moment amount successor) }
        requires none { (kind : EndKind) → to ≡ phase.Ending kind → EndsNone desk.old }
        ensures own { IsOf self.now desk.new }
        ensures turned { HasTurned row from to (end_at moment amount successor) desk.old desk.new result }
    {
        let end = End {
            moment,
            amount,
            successor,
        };
        match self.turn_row(desk, row, from, to, end) {
            Some(shown) => StepTurned::Missed { shown },
            None => turned_to(row, to, end),
        }
    }

    // None where the turn is made, else the word shown.
    fn turn_row(&self, desk: &mut Desk, row: RowNo, from: Phase, to: Phase, end: End) -> Option<u64>
        requires own { IsOf self.now desk.old }
        requires turn { CanTurn self.now.layout desk.old.seen desk.old.number row from to end }
        ensures own { IsOf self.now desk.new }
        ensures turned { IfNone result (IsTurned row from to end desk.old desk.new) }
        ensures lost { IfSome result (λ n. IsTurnLost row from n desk.old desk.new) }
    {
        let old = row_word_of(from, row.generation);
        let hit = Step::Turn {
            row: row.row,
            from,
            to,
            moment: end.moment,
            amount: end.amount,
            successor: end.successor,
        };
        let found = self.turn_at(&mut desk.seat, row, from, to, hit);
        if found != old {
            return Some(found);
        }
        self.marks.set(row.row);
        None
    }

    fn turn_at(
        &self,
        seat: &mut Seat<u64, View>,
        row: RowNo,
        from: Phase,
        to: Phase,
        hit: Step,
    ) -> u64
        requires own { IsSeatOf self.now self.now.layout seat.old }
        requires turn { IsTurning self.now.layout seat.old.me.0.seen seat.old.me.0.number row from to hit }
        ensures made { HasMade self.now.layout (turn_step_from from row hit result) seat.old seat.new }
        ensures found { Found self.now.layout (Row row.row standing_word) result seat.old.me.0 seat.new.me.0 }
    {
        let old = row_word_of(from, row.generation);
        let new = row_word_of(to, row.generation);
        self.exchange_as::<Brand>(seat, Word::Row(row.row, STANDING_WORD), old, new, hit)
    }

    /// Reads the items that the ending is to give back.
    pub fn step_items(&self, desk: &mut Desk, ending: &mut Ending)
        requires own { IsOf self.now desk.old }
        requires ending { IsEndingOf desk.old ending.old }
        requires unread { (ending.old.read ≡ false) × (ending.old.given ≡ 0) }
        ensures own { IsOf self.now desk.new }
        ensures ending { IsEndingOf desk.new ending.new }
        ensures read { ending.new ≡ record ending.old { items = ending.new.items; read = true } }
        ensures seen { AddsSteps desk.old desk.new (items_read ending.old.row.row ending.new.items) }
        ensures few { length ending.new.items ≤ most_items }
        ensures kept { desk.new.kept ≡ desk.old.kept }
    {
        ending.items = self.read_items(desk, ending);
        ending.read = true;
    }

    fn read_items(&self, desk: &mut Desk, ending: &Ending) -> ArrayVec<Item, MOST_ITEMS>
        requires own { IsOf self.now desk.old }
        requires ending { IsEndingOf desk.old ending.now }
        requires unread { (ending.now.read ≡ false) × (ending.now.given ≡ 0) }
        ensures own { IsOf self.now desk.new }
        ensures ending { IsEndingOf desk.new record ending.now { items = result.items; read = true } }
        ensures seen { AddsSteps desk.old desk.new (items_read ending.now.row.row result.items) }
        ensures few { length result.items ≤ most_items }
        ensures kept { desk.new.kept ≡ desk.old.kept }
    {
        let _ = &self.table;
        let row = ending.row;
        let count = self.step_read(desk, row, COUNT_WORD) as u8;
        let mut items = ArrayVec::new();
        for i in 0..count {
            let word = self.step_read(desk, row, FIRST_ITEM_WORD as u8 + i);
            items.push(item_of(word));
        }
        items
    }

    /// Gives the first item left back.
    pub fn step_give(&self, desk: &mut Desk, ending: &mut Ending)
        requires own { IsOf self.now desk.old }
        requires ending { IsEndingOf desk.old ending.old }
        requires read { ending.old.read ≡ true }
        requires left { ending.old.given < length ending.old.items }
        ensures own { IsOf self.now desk.new }
        ensures ending { IsEndingOf desk.new ending.new }
        ensures one { ending.new ≡ record ending.old { given = ending.old.given + 1 } }
        ensures given { Stepped (Give ending.old.row.row ending.old.given) desk.old desk.new }
    {
        let item = ending.items[ending.given as usize];
        self.undo_at(&mut desk.seat, ending.row.row, ending.given, item);
        ending.given += 1;
    }

    /// Notes an end word of the ending's row.
    pub fn step_end(&self, desk: &mut Desk, ending: &mut Ending, word: u8, value: u64)
        requires own { IsOf self.now desk.old }
        requires ending { IsEndingOf desk.old ending.old }
        requires word { IsEndWord word }
        ensures own { IsOf self.now desk.new }
        ensures ending { IsEndingOf desk.new ending.new × (ending.new ≡ ending.old) }
        ensures noted { Stepped (Note ending.old.row.row word value) desk.old desk.new }
    {
        self.note_at(&mut desk.seat, ending.row.row, word, value);
    }

    /// Closes the ending's row.
    pub fn step_close(&self, desk: &mut Desk, ending: Ending)
        requires own { IsOf self.now desk.old }
        requires ending { IsEndingOf desk.old ending }
        requires ready { MayStep self.now.layout desk.old (Close ending.row.row) }
        ensures own { IsOf self.now desk.new }
        ensures closed { Stepped (Close ending.row.row) desk.old desk.new }
    {
        let Ending {
            row,
            kind,
            end: _,
            items: _,
            given: _,
            read: _,
        } = ending;
        self.close_at(&mut desk.seat, row, kind);
        self.marks.set(row.row);
    }

    fn close_at(&self, seat: &mut Seat<u64, View>, row: RowNo, kind: EndKind)
        requires own { IsSeatOf self.now self.now.layout seat.old }
        requires row { row.row < self.now.layout.rows }
        requires ready { CanClose self.now.layout seat.old.me.0.seen seat.old.me.0.number row kind }
        ensures { HasMade self.now.layout (Close row.row) seat.old seat.new }
    {
        let old = row_word_of(Phase::Ending(kind), row.generation);
        let new = row_word_of(Phase::Ended(kind), row.generation);
        let closed = Step::Close { row: row.row };
        self.exchange_as::<Brand>(seat, Word::Row(row.row, STANDING_WORD), old, new, closed);
    }
}
