//! A try of one candidate, piece by piece.
ghost use Rattle.std.specs.Prelude.{◌≡◌, ◌≢◌, ◌+◌, ◌<◌, ◌≤◌, [], ◌∷◌, length, slice_index};
ghost use Rattle.history_model.specs.Booking.{most_items};
ghost use Rattle.history_model.specs.Looks.{look_at};
ghost use Rattle.leg_masks.specs.Interval.{IsClear, IsPiece, pieces as spec_pieces};
ghost use Rattle.claim_rule.specs.Rule.{DeskView};
ghost use Rattle.claim_rule.specs.Desks.{IsOf, AddsSteps};
ghost use Rattle.claim_rule.specs.Out.{IsHolding, HasNotedItems, KeepsEndings};
ghost use Rattle.hold_core.specs.Tries.{TriesPiece, TriesPlace, TriesSecond};

use booking_rows::note_item;
use claim_rule::{Books, Desk, Hold};
use leg_masks::{Span, free_on, half_of, pieces};
use rail_ids::PlaceNo;
use seat_words::{Take, glance, try_take, undo_last};

// How often a look is followed by a try to take: a piece is looked at once more than that.
const MOST_TRIES: u8 = 8;

/// How a try of one candidate, or of one piece of it, ended.
#[derive(Clone, Copy, PartialEq, Eq)]
pub enum Outcome {
    /// It is won, and its items are noted.
    Won,
    /// A look showed a taken leg.
    Refused,
    /// Nine looks in a row were free, each unlike the one before.
    Contended,
}

/// Tries one candidate: each piece of the span in turn, until one isn't won. Then what was won of it is given back.
/// Inlined, so that the loop over the candidates works out a piece's half and mask once.
#[inline(always)]
pub(crate) fn try_place(
    books: &Books,
    desk: &mut Desk,
    hold: &mut Hold,
    place: PlaceNo,
    span: Span,
) -> Outcome
    requires own { IsOf books.now desk.old }
    requires hold { IsHolding desk.old hold.old }
    requires room { length hold.old.items + length (spec_pieces span) ≤ most_items }
    requires place { place.0 < length books.now.layout.legs }
    requires legs { span.to ≤ slice_index books.now.layout.legs place.0 }
    ensures own { IsOf books.now desk.new }
    ensures tried { TriesPlace desk.old hold.old place.0 span desk.new hold.new result }
    ensures hold { IsHolding desk.new hold.new }
    ensures noted { HasNotedItems desk.old hold.old → HasNotedItems desk.new hold.new }
    ensures endings { KeepsEndings desk.old desk.new }
{
    if span.is_piece() {
        return try_piece(books, desk, hold, place, span);
    }
    try_parts(books, desk, hold, place, span)
}

// The same, piece by piece.
#[inline(never)]
fn try_parts(books: &Books, desk: &mut Desk, hold: &mut Hold, place: PlaceNo, span: Span) -> Outcome
    requires own { IsOf books.now desk.old }
    requires hold { IsHolding desk.old hold.old }
    requires room { length hold.old.items + length (spec_pieces span) ≤ most_items }
    requires place { place.0 < length books.now.layout.legs }
    requires legs { span.to ≤ slice_index books.now.layout.legs place.0 }
    ensures own { IsOf books.now desk.new }
    ensures tried { TriesPlace desk.old hold.old place.0 span desk.new hold.new result }
    ensures hold { IsHolding desk.new hold.new }
    ensures noted { HasNotedItems desk.old hold.old → HasNotedItems desk.new hold.new }
    ensures endings { KeepsEndings desk.old desk.new }
{
    let parts = pieces(span);
    let first = parts[0];
    match try_piece(books, desk, hold, place, first) {
        Outcome::Won => {
            if parts.len() == 1 {
                return Outcome::Won;
            }
            let second = parts[1];
            try_second(books, desk, hold, place, second)
        }
        Outcome::Refused => Outcome::Refused,
        Outcome::Contended => Outcome::Contended,
    }
}

// Tries the second piece of a candidate, whose first is won. Where this one isn't, the first is given back.
fn try_second(
    books: &Books,
    desk: &mut Desk,
    hold: &mut Hold,
    place: PlaceNo,
    piece: Span,
) -> Outcome
    requires own { IsOf books.now desk.old }
    requires hold { IsHolding desk.old hold.old }
    requires some { 0 < length hold.old.items }
    requires room { length hold.old.items < most_items }
    requires place { place.0 < length books.now.layout.legs }
    requires piece { IsPiece piece }
    requires legs { piece.to ≤ slice_index books.now.layout.legs place.0 }
    ensures own { IsOf books.now desk.new }
    ensures tried { TriesSecond desk.old hold.old place.0 piece desk.new hold.new result }
    ensures hold { IsHolding desk.new hold.new }
    ensures noted { HasNotedItems desk.old hold.old → HasNotedItems desk.new hold.new }
    ensures endings { KeepsEndings desk.old desk.new }
{
    match try_piece(books, desk, hold, place, piece) {
        Outcome::Won => Outcome::Won,
        Outcome::Refused => {
            undo_last(books, desk, hold);
            Outcome::Refused
        }
        Outcome::Contended => {
            undo_last(books, desk, hold);
            Outcome::Contended
        }
    }
}

// Looks at a piece, and takes its legs by one exchange on the very word that a look showed free there; where the word
// has moved on and still is free, once more. Most looks of a full run show a taken leg, so what follows one that
// doesn't stands apart.
#[inline(always)]
fn try_piece(
    books: &Books,
    desk: &mut Desk,
    hold: &mut Hold,
    place: PlaceNo,
    piece: Span,
) -> Outcome
    requires own { IsOf books.now desk.old }
    requires hold { IsHolding desk.old hold.old }
    requires room { length hold.old.items < most_items }
    requires place { place.0 < length books.now.layout.legs }
    requires piece { IsPiece piece }
    requires legs { piece.to ≤ slice_index books.now.layout.legs place.0 }
    ensures own { IsOf books.now desk.new }
    ensures tried { TriesPiece desk.old hold.old place.0 piece desk.new hold.new result }
    ensures hold { IsHolding desk.new hold.new }
    ensures noted { HasNotedItems desk.old hold.old → HasNotedItems desk.new hold.new }
    ensures endings { KeepsEndings desk.old desk.new }
{
    let shown = glance(books, desk, place, half_of(piece));
    if !free_on(shown, piece) {
        return Outcome::Refused;
    }
    take_shown(books, desk, hold, place, piece, shown)
}

// Goes on with a piece that the first look showed free.
#[inline(never)]
fn take_shown(
    books: &Books,
    desk: &mut Desk,
    hold: &mut Hold,
    place: PlaceNo,
    piece: Span,
    first: u64,
) -> Outcome
    requires own { IsOf books.now desk.old }
    requires hold { IsHolding desk.old hold.old }
    requires room { length hold.old.items < most_items }
    requires place { place.0 < length books.now.layout.legs }
    requires piece { IsPiece piece }
    requires legs { piece.to ≤ slice_index books.now.layout.legs place.0 }
    requires clear { IsClear first piece }
    ensures own { IsOf books.now desk.new }
    ensures tried { (before : DeskView) → AddsSteps before desk.old (look_at place.0 piece first ∷ [])
        → TriesPiece before hold.old place.0 piece desk.new hold.new result }
    ensures hold { IsHolding desk.new hold.new }
    ensures noted { HasNotedItems desk.old hold.old → HasNotedItems desk.new hold.new }
    ensures endings { KeepsEndings desk.old desk.new }
{
    let mut shown = first;
    for _ in 0..MOST_TRIES {
        match try_take(books, desk, hold, place, piece, shown) {
            Take::Won => {
                note_item(books, desk, hold);
                return Outcome::Won;
            }
            Take::Taken { shown: _ } => return Outcome::Refused,
            Take::Moving { shown: moved } => shown = moved,
        }
    }
    Outcome::Contended
}
