//! Taking the places of a stretch.
ghost use Rattle.std.specs.Prelude.{◌≡◌, ◌+◌, ◌-◌, ◌*◌, ◌<◌, ◌≤◌, IfSome, IfNone, List, length};
ghost use Rattle.leg_masks.specs.Interval.{PlacedSpan as Item, pieces};
ghost use Rattle.history_model.specs.Booking.{most_items};
ghost use Rattle.claim_rule.specs.Desks.{IsOf, AddsSteps};
ghost use Rattle.claim_rule.specs.Out.{IsHolding, HasNotedItems, KeepsEndings};
ghost use Rattle.hold_core.specs.Tries.{with_items};
ghost use Rattle.party_places.specs.Parties.{AreCandidates, GivesUp, LosesOne, Takes, gives_down};

use claim_rule::{Books, Desk, Hold};
use hold_core::{Added, add_places};
use leg_masks::Span;
use rail_ids::PlaceNo;
use seat_words::undo_last;

// Adds each of the places in order, as the only candidate for one: which one isn't won, if any.
fn take_each(
    books: &Books,
    desk: &mut Desk,
    hold: &mut Hold,
    stretch: &[PlaceNo],
    span: Span,
) -> Option<usize>
    requires own { IsOf books.now desk.old }
    requires hold { IsHolding desk.old hold.old }
    requires places { AreCandidates books.now.layout.legs span stretch.now }
    requires room { length hold.old.items + length stretch.now * length (pieces span) ≤ most_items }
    ensures own { IsOf books.now desk.new }
    ensures all { IfNone result (Takes hold.old span stretch.now desk.old desk.new hold.new) }
    ensures lost { IfSome result (λ n. LosesOne hold.old span stretch.now n desk.old desk.new hold.new) }
    ensures within { IfSome result (λ n. n < length stretch.now) }
    ensures hold { IsHolding desk.new hold.new }
    ensures noted { HasNotedItems desk.old hold.old → HasNotedItems desk.new hold.new }
    ensures endings { KeepsEndings desk.old desk.new }
{
    for at in 0..stretch.len() {
        match add_places(books, desk, hold, &[stretch[at]], span, 1) {
            Added::All => {}
            Added::NoPlace { won: _ } => return Some(at),
            Added::Contended { place: _ } => return Some(at),
        }
    }
    None
}

// Gives the hold's last items back, until that many are left.
fn give_back(books: &Books, desk: &mut Desk, hold: &mut Hold, left: usize)
    requires own { IsOf books.now desk.old }
    requires hold { IsHolding desk.old hold.old }
    requires left { left ≤ length hold.old.items }
    ensures own { IsOf books.now desk.new }
    ensures entries { AddsSteps desk.old desk.new (gives_down hold.old.row.row left (length hold.old.items - left)) }
    ensures held { (gone : List Item) × (hold.old ≡ with_items hold.new gone) }
    ensures left { length hold.new.items ≡ left }
    ensures hold { IsHolding desk.new hold.new }
    ensures noted { HasNotedItems desk.old hold.old → HasNotedItems desk.new hold.new }
    ensures endings { KeepsEndings desk.old desk.new }
{
    for _ in left..hold.items().len() {
        undo_last(books, desk, hold);
    }
}

// Takes all places of a stretch, or none: then which one isn't won.
pub(crate) fn take_stretch(
    books: &Books,
    desk: &mut Desk,
    hold: &mut Hold,
    stretch: &[PlaceNo],
    span: Span,
) -> Option<usize>
    requires own { IsOf books.now desk.old }
    requires hold { IsHolding desk.old hold.old }
    requires places { AreCandidates books.now.layout.legs span stretch.now }
    requires room { length hold.old.items + length stretch.now * length (pieces span) ≤ most_items }
    ensures own { IsOf books.now desk.new }
    ensures all { IfNone result (Takes hold.old span stretch.now desk.old desk.new hold.new) }
    ensures lost { IfSome result (λ n. GivesUp hold.old span stretch.now n desk.old desk.new hold.new) }
    ensures within { IfSome result (λ n. n < length stretch.now) }
    ensures hold { IsHolding desk.new hold.new }
    ensures noted { HasNotedItems desk.old hold.old → HasNotedItems desk.new hold.new }
    ensures endings { KeepsEndings desk.old desk.new }
{
    let had = hold.items().len();
    match take_each(books, desk, hold, stretch, span) {
        None => None,
        Some(lost) => {
            give_back(books, desk, hold, had);
            Some(lost)
        }
    }
}
