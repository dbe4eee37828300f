//! Places as a desk's calls see them: looks, tries to take legs, and gives.
//!
//! Each call says which entries of its own it adds to what its desk has seen, and in which state it leaves the desk's
//! hold and ending. A taken leg is set by one compare and exchange on a word that was free there; a give clears the
//! legs of its item alone.
//!
//! No call takes memory, and none waits: none is given anything to do it with.
#![tactic(auto)]

ghost use Rattle.std.specs.Prelude.{ℕ, ◌≡◌, ◌≢◌, ◌<◌, ◌≤◌, true, List, [], ◌∷◌, length, slice_index};
ghost use Rattle.history_model.specs.declared.entry.Step.TheVariants.{Look, Give};
ghost use Rattle.history_model.specs.Booking.{most_items};
ghost use Rattle.leg_masks.specs.Interval.{IsClear, IsPiece, PlacedSpan as Item, halves};
ghost use Rattle.claim_rule.specs.Desks.{IsOf, AddsSteps};
ghost use Rattle.claim_rule.specs.Holds.{with_one};
ghost use Rattle.claim_rule.specs.Out.{IsHolding, IsEnding, HasNoted, HasNotedButLast, HasNotedItems, KeepsHolds, KeepsEndings};
ghost use Rattle.seat_words.specs.Gives.{gives_left};
ghost use Rattle.seat_words.specs.Takes.{HasTried};

use claim_rule::{Books, Desk, Ending, Hold};
use leg_masks::{Span, free_on};
use rail_ids::PlaceNo;

/// One look at a half of a place: its word. Bit b of half 0 is set where leg b is taken, of half 1 where leg b + 63 is.
pub fn glance(books: &Books, desk: &mut Desk, place: PlaceNo, half: u8) -> u64
    requires own { IsOf books.now desk.old }
    requires place { place.0 < length books.now.layout.legs }
    requires half { half < halves }
    ensures own { IsOf books.now desk.new }
    ensures entries { AddsSteps desk.old desk.new (Look place.0 half result ∷ []) }
    ensures holds { KeepsHolds desk.old desk.new }
    ensures endings { KeepsEndings desk.old desk.new }
{
    books.step_look(desk, place, half)
}

/// What a try to take legs answers.
#[derive(Clone, Copy, Debug, PartialEq, Eq)]
pub enum Take {
    /// The legs are taken, and the hold has the item.
    Won,
    /// The word shown, unlike the one expected, has a leg of the piece.
    Taken { shown: u64 },
    /// The word shown, unlike the one expected, is free on the piece.
    Moving { shown: u64 },
}

/// Takes legs of a place, which lie in one half, by one compare and exchange, where the word of that half is still the
/// one expected. The word expected is free on them, and the hold has fewer than 48 items.
pub fn try_take(
    books: &Books,
    desk: &mut Desk,
    hold: &mut Hold,
    place: PlaceNo,
    span: Span,
    expected: u64,
) -> Take
    requires own { IsOf books.now desk.old }
    requires hold { IsHolding desk.old hold.old }
    requires room { length hold.old.items < most_items }
    requires place { place.0 < length books.now.layout.legs }
    requires piece { IsPiece span }
    requires legs { span.to ≤ slice_index books.now.layout.legs place.0 }
    requires free { IsClear expected span }
    ensures own { IsOf books.now desk.new }
    ensures take { HasTried desk.old hold.old place.0 span expected desk.new hold.new result }
    ensures hold { IsHolding desk.new hold.new }
    ensures noted { HasNotedItems desk.old hold.old → HasNoted desk.new hold.new.row.row hold.old.items }
    ensures endings { KeepsEndings desk.old desk.new }
{
    let item = books.item_at(place, span);
    let _ = span.from();
    let _ = span.to();
    match books.step_take(desk, hold, item, expected) {
        None => Take::Won,
        Some(shown) => {
            if free_on(shown, span) {
                Take::Moving { shown }
            } else {
                Take::Taken { shown }
            }
        }
    }
}

/// Gives the hold's last item back, and drops it. What is noted stays noted.
pub fn undo_last(books: &Books, desk: &mut Desk, hold: &mut Hold)
    requires own { IsOf books.now desk.old }
    requires hold { IsHolding desk.old hold.old }
    requires some { 0 < length hold.old.items }
    ensures own { IsOf books.now desk.new }
    ensures last { (i : Item) × (hold.old ≡ with_one hold.new i) }
    ensures entries { AddsSteps desk.old desk.new (Give hold.old.row.row (length hold.new.items) ∷ []) }
    ensures hold { IsHolding desk.new hold.new }
    ensures noted { HasNotedButLast desk.old hold.old → HasNotedItems desk.new hold.new }
    ensures still { (items : List Item) → HasNoted desk.old hold.old.row.row items
        → HasNoted desk.new hold.new.row.row items }
    ensures endings { KeepsEndings desk.old desk.new }
{
    books.step_undo(desk, hold);
}

/// Gives every item of the ending back that isn't given back yet, in order. It clears exactly those items' legs.
pub fn give_all(books: &Books, desk: &mut Desk, ending: &mut Ending)
    requires own { IsOf books.now desk.old }
    requires ending { IsEnding desk.old ending.old }
    requires read { ending.old.read ≡ true }
    ensures own { IsOf books.now desk.new }
    ensures all { ending.new ≡ record ending.old { given = length ending.old.items } }
    ensures entries { AddsSteps desk.old desk.new (gives_left ending.old) }
    ensures ending { IsEnding desk.new ending.new }
    ensures holds { KeepsHolds desk.old desk.new }
{
    for _ in 0..ending.left() {
        books.step_give(desk, ending);
    }
}
