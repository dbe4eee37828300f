//! Adding places for a party.
ghost use Rattle.std.specs.Prelude.{ℕ, ◌≡◌, ◌+◌, ◌-◌, ◌*◌, ◌≤◌, List, drop, length, take};
ghost use Rattle.leg_masks.specs.Interval.{PlacedSpan as Item, pieces};
ghost use Rattle.history_model.specs.Booking.{most_items};
ghost use Rattle.claim_rule.specs.Desks.{IsOf};
ghost use Rattle.claim_rule.specs.Calls.{AddsStepsBy};
ghost use Rattle.claim_rule.specs.Out.{IsHolding, HasNotedItems, KeepsEndings};
ghost use Rattle.hold_core.specs.Tries.{with_items};
ghost use Rattle.party_places.specs.Parties.{AreCandidates, SeatsParty, answer_apart, asked};
ghost use Rattle.party_places.specs.Causes.{SpoilsAll};

use crate::searches::find_stretch;
use crate::takes::take_stretch;
use claim_rule::{Books, Desk, Hold};
use hold_core::{Added, add_places};
use leg_masks::Span;
use place_map::PlaceMap;
use rail_ids::PlaceNo;

/// What came of adding places for a party.
#[derive(Clone, Copy, PartialEq, Eq)]
pub enum PartyAdded {
    /// As many as were asked for are won, side by side; this is the first of them.
    Together { first: PlaceNo },
    /// As many as were asked for are won, as `add_places` wins them. Each stretch of the candidates had a place with a
    /// leg that was taken or contended when it was looked at or tried.
    Apart,
    /// Fewer places were won by this call, and every other candidate showed it a taken leg of the span.
    NoPlace { won: u8 },
    /// Nine looks in a row showed this place free on a piece of the span, each word unlike the one before.
    Contended { place: PlaceNo },
}

// What came of adding places of all candidates, where no stretch was left.
fn answer_of(added: Added) -> PartyAdded
    ensures { result ≡ answer_apart added }
{
    match added {
        Added::All => PartyAdded::Apart,
        Added::NoPlace { won } => PartyAdded::NoPlace { won },
        Added::Contended { place } => PartyAdded::Contended { place },
    }
}

// The last `count` of the candidates up to the one before `end`.
fn last_of(candidates: &[PlaceNo], end: usize, count: u8) -> &[PlaceNo]
    requires some { count ≤ end }
    requires within { end ≤ length candidates.now }
    ensures places { result.now ≡ take count (drop (end - count) candidates.now) }
    ensures many { length result.now ≡ count }
{
    &candidates[end - usize::from(count)..end]
}

// The candidates from this one on.
fn behind(candidates: &[PlaceNo], from: usize) -> &[PlaceNo]
    requires within { from ≤ length candidates.now }
    ensures places { result.now ≡ drop from candidates.now }
    ensures left { length result.now + from ≡ length candidates.now }
{
    &candidates[from..]
}

/// Adds to the hold `count` of the candidates for the span, side by side if a stretch is found free and won: in one
/// coach, each with the number one above the one before.
///
/// It looks at the candidates in order, once at each piece of the span, until `count` of them in a row stand side by
/// side and showed free. Those are taken one by one, each as `add_places` takes it. Where one isn't won, what was won
/// is given back, and the next try begins after that place. Where the list ends, places are added of all candidates,
/// as by `add_places`.
///
/// The candidates are places of one run in rising number, all of these books. `count` is at least 1, and the hold's
/// items and those of `count` places are together at most 48. A hold keeps what it won: after `NoPlace` and `Contended`
/// the caller abandons it.
pub fn add_party(
    places: &PlaceMap,
    books: &Books,
    desk: &mut Desk,
    hold: &mut Hold,
    candidates: &[PlaceNo],
    span: Span,
    count: u8,
) -> PartyAdded
    requires own { IsOf books.now desk.old }
    requires hold { IsHolding desk.old hold.old }
    requires places { AreCandidates books.now.layout.legs span candidates.now }
    requires some { 1 ≤ count }
    requires room { length hold.old.items + count * length (pieces span) ≤ most_items }
    ensures own { IsOf books.now desk.new }
    // Its entries go by tries, with the items that the hold has more.
    ensures entries { (won : List Item)
        × AddsStepsBy (SeatsParty (asked places.now hold.old span count candidates.now) result won) desk.old desk.new
        × (hold.new ≡ with_items hold.old won) }
    // Where the party doesn't sit together, each stretch had a place with a leg that was taken or contended.
    ensures causes { AddsStepsBy
        (SpoilsAll (asked places.now hold.old span count candidates.now) result) desk.old desk.new }
    ensures hold { IsHolding desk.new hold.new }
    ensures noted { HasNotedItems desk.old hold.old → HasNotedItems desk.new hold.new }
    ensures endings { KeepsEndings desk.old desk.new }
{
    let mut left = candidates;
    while let Some(end) = find_stretch(places, books, desk, left, span, count) {
        let stretch = last_of(left, end, count);
        match take_stretch(books, desk, hold, stretch, span) {
            None => return PartyAdded::Together { first: stretch[0] },
            Some(lost) => left = behind(left, end - usize::from(count) + lost + 1),
        }
    }
    answer_of(add_places(books, desk, hold, candidates, span, count))
}
