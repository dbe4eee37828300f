//! Adding places to a hold.
ghost use Rattle.std.specs.Prelude.{ℕ, ◌≡◌, ◌+◌, ◌-◌, ◌*◌, ◌<◌, ◌≤◌, All, length, map, slice_index};
ghost use Rattle.history_model.specs.Booking.{most_items};
ghost use Rattle.leg_masks.specs.Interval.{IsPiece, pieces};
ghost use Rattle.claim_rule.specs.Desks.{IsOf, AddsAtMost};
ghost use Rattle.claim_rule.specs.Out.{IsHolding, HasNotedItems, KeepsEndings};
ghost use Rattle.hold_core.specs.Tries.{most_looks, place_number};
ghost use Rattle.hold_core.specs.Places.{AddsPlaces, most_entries};

use crate::tries::{Outcome, try_place};
use claim_rule::{Books, Desk, Hold};
use leg_masks::Span;
use rail_ids::PlaceNo;

/// What came of adding places.
#[derive(Clone, Copy, Debug, PartialEq, Eq)]
pub enum Added {
    /// As many as were asked for are won.
    All,
    /// Fewer places were won by this call, and every other candidate showed it a taken leg of the span.
    NoPlace { won: u8 },
    /// Nine looks in a row showed this place free on a piece of the span, each word unlike the one before.
    Contended { place: PlaceNo },
}

/// Goes through the candidates in order, and adds to the hold those that it wins on all legs of the span, until
/// `count` are won: an item for each piece of the span, noted in the hold's row. Where a piece of a candidate isn't
/// won, what was won of that candidate is given back.
///
/// `count` is at least 1, and the hold's items and those of `count` places are together at most 48. A hold keeps what
/// it won: after another answer than `All` the caller abandons it. At most twenty entries are added for each candidate;
/// where the span lies in one half nine, and a note for each place won.
#[inline(never)]
pub fn add_places(
    books: &Books,
    desk: &mut Desk,
    hold: &mut Hold,
    candidates: &[PlaceNo],
    span: Span,
    count: u8,
) -> Added
    requires own { IsOf books.now desk.old }
    requires hold { IsHolding desk.old hold.old }
    requires places { All
        (λ p. (p.0 < length books.now.layout.legs) × (span.to ≤ slice_index books.now.layout.legs p.0)) candidates.now }
    requires some { 1 ≤ count }
    requires room { length hold.old.items + count * length (pieces span) ≤ most_items }
    ensures own { IsOf books.now desk.new }
    ensures entries { AddsPlaces
        desk.old hold.old span count (map place_number candidates.now) result desk.new hold.new }
    ensures hold { IsHolding desk.new hold.new }
    ensures noted { HasNotedItems desk.old hold.old → HasNotedItems desk.new hold.new }
    ensures endings { KeepsEndings desk.old desk.new }
    ensures bound { AddsAtMost (most_entries * length candidates.now) desk.old desk.new }
    ensures bound_in_half { IsPiece span → AddsAtMost
        (most_looks * length candidates.now + (length hold.new.items - length hold.old.items)) desk.old desk.new }
{
    let mut won = 0;
    for place in candidates {
        match try_place(books, desk, hold, *place, span) {
            Outcome::Contended => return Added::Contended { place: *place },
            Outcome::Refused => {}
            Outcome::Won => {
                won += 1;
                if won == count {
                    return Added::All;
                }
            }
        }
    }
    Added::NoPlace { won }
}
