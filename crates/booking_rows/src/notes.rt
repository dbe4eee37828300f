//! What a maker notes in its row, and the seal.
ghost use Rattle.std.specs.Prelude.{ℕ, ◌≡◌, ◌≤◌, ◌<◌, ◌+◌, [], ◌∷◌, ◌++◌, List, length};
ghost use Rattle.leg_masks.specs.Interval.{item_word, PlacedSpan as Item};
ghost use Rattle.history_model.specs.declared.entry.Step.TheVariants.{Note, Seal};
ghost use Rattle.history_model.specs.Booking.{first_item_word, greatest_amount, greatest_retailer};
ghost use Rattle.claim_rule.specs.Desks.{IsOf, AddsSteps};
ghost use Rattle.claim_rule.specs.Out.{IsHolding, HoldsNone, HasNotedItems, HasNotedButLast, IsToBeSealed, MaySealHold, KeepsEndings, SealsItems};
ghost use Rattle.booking_rows.specs.Notes.{sealed_phase, detail_notes, NotesLastItem, MakesReady};

use claim_rule::{Books, Desk, Hold};
use history_model::booking::{COUNT_WORD, FIRST_ITEM_WORD, LIMIT_WORD, RETAILER_WORD, TOTAL_WORD};
use history_model::phase::Phase;
use leg_masks::write_item;
use rail_ids::{RetailerNo, RowNo};
use rail_time::Moment;

/// What a maker notes of a booking besides its items: its retailer, its limit of confirmation, and its total in minor
/// units.
#[derive(Clone, Copy, PartialEq, Eq)]
pub struct Detail {
    pub retailer: RetailerNo,
    pub limit: Moment,
    pub total: u64,
}

/// How a booking is sealed.
#[derive(Clone, Copy, PartialEq, Eq)]
pub enum Sealed {
    Prebooked,
    Confirmed,
}

impl Sealed {
    /// The phase that it gives.
    pub fn phase(self) -> Phase
        ensures phase { result ≡ sealed_phase self }
    {
        match self {
            Sealed::Prebooked => Phase::Prebooked,
            Sealed::Confirmed => Phase::Confirmed,
        }
    }
}

/// Notes the word of the hold's last item. Where those of the items before it are noted, all are then.
pub fn note_item(books: &Books, desk: &mut Desk, hold: &mut Hold)
    requires own { IsOf books.now desk.old }
    requires hold { IsHolding desk.old hold.old }
    requires some { 0 < length hold.old.items }
    ensures own { IsOf books.now desk.new }
    ensures entries { NotesLastItem hold.old desk.old desk.new }
    ensures same { hold.new ≡ hold.old }
    ensures hold { IsHolding desk.new hold.new }
    ensures noted { HasNotedButLast desk.old hold.old → HasNotedItems desk.new hold.new }
    ensures endings { KeepsEndings desk.old desk.new }
{
    let last = hold.items().len() - 1;
    let word = write_item(hold.items()[last]);
    books.step_note(desk, hold, FIRST_ITEM_WORD as u8 + last as u8, word);
}

/// Notes retailer, limit, total and the number of items. Where there is an item, all items are noted and the total is
/// in range, the hold may then be sealed.
pub fn note_detail(books: &Books, desk: &mut Desk, hold: &mut Hold, detail: Detail)
    requires own { IsOf books.now desk.old }
    requires hold { IsHolding desk.old hold.old }
    ensures own { IsOf books.now desk.new }
    ensures entries { AddsSteps desk.old desk.new (detail_notes hold.old.row.row detail (length hold.old.items)) }
    ensures same { hold.new ≡ hold.old }
    ensures hold { IsHolding desk.new hold.new }
    ensures ready { MakesReady detail desk.old hold.old desk.new hold.new }
    ensures endings { KeepsEndings desk.old desk.new }
{
    let count = hold.items().len() as u64;
    books.step_note(desk, hold, RETAILER_WORD, number_word(detail.retailer.0));
    books.step_note(desk, hold, LIMIT_WORD, detail.limit.seconds());
    books.step_note(desk, hold, TOTAL_WORD, detail.total);
    books.step_note(desk, hold, COUNT_WORD, count);
}

/// Seals the hold's row, where its items and its detail are noted. As confirmed only where the row is the successor of
/// a booking that this desk turned to an exchange. It can't fail, since nobody else changes a row in the making.
pub fn seal(books: &Books, desk: &mut Desk, hold: Hold, sealed: Sealed) -> RowNo
    requires own { IsOf books.now desk.old }
    requires hold { IsHolding desk.old hold }
    requires ready { IsToBeSealed desk.old hold }
    requires phase { MaySealHold desk.old hold (sealed_phase sealed) }
    ensures own { IsOf books.now desk.new }
    ensures entries { AddsSteps desk.old desk.new (Seal hold.row.row (sealed_phase sealed) ∷ []) }
    ensures row { result ≡ hold.row }
    ensures items { SealsItems desk.old desk.new hold.row (sealed_phase sealed) hold.items }
    ensures none { HoldsNone desk.new }
    ensures endings { KeepsEndings desk.old desk.new }
{
    books.step_seal(desk, hold, sealed.phase())
}

// The number of a retailer as a word.
fn number_word(number: u32) -> u64
    ensures value { result ≡ number }
    ensures most { result ≤ greatest_retailer }
{
    u64::from(number)
}
