//! Looking for a stretch that is free.
ghost use Rattle.std.specs.Prelude.{◌≡◌, ◌<◌, ◌≤◌, ◌&&◌, nat_lt, All, IfSome, IfNone, length, map};
ghost use Rattle.leg_masks.specs.Interval.{pieces as spec_pieces};
ghost use Rattle.claim_rule.specs.Desks.{IsOf};
ghost use Rattle.claim_rule.specs.Calls.{AddsStepsBy};
ghost use Rattle.claim_rule.specs.Out.{KeepsHolds, KeepsEndings};
ghost use Rattle.availability.specs.Looks.{LooksPieces};
ghost use Rattle.hold_core.specs.Tries.{place_number};
ghost use Rattle.party_places.specs.Stretches.{is_beside as stands_beside};
ghost use Rattle.party_places.specs.Searches.{FindsAt, FindsNothing, next_together};

use availability::free_places;
use claim_rule::{Books, Desk};
use leg_masks::Span;
use place_map::PlaceMap;
use rail_ids::PlaceNo;

// Whether the second place is in the first one's coach, and has the number one above.
fn is_beside(places: &PlaceMap, first: PlaceNo, second: PlaceNo) -> bool
    ensures { result ≡ stands_beside places.now first.0 second.0 }
{
    let (Some(p), Some(q)) = (places.place(first), places.place(second)) else {
        return false;
    };
    q.run.0 == p.run.0 && q.coach == p.coach && u32::from(q.number) == u32::from(p.number) + 1
}

// One look at each piece of the span at the place, and whether it was free on all of them.
fn is_free(books: &Books, desk: &mut Desk, place: PlaceNo, span: Span) -> bool
    requires own { IsOf books.now desk.old }
    requires place { place.0 < length books.now.layout.legs }
    ensures own { IsOf books.now desk.new }
    ensures entries { AddsStepsBy (LooksPieces place.0 (spec_pieces span) result) desk.old desk.new }
    ensures holds { KeepsHolds desk.old desk.new }
    ensures endings { KeepsEndings desk.old desk.new }
{
    free_places(books, desk, &[place], span) > 0
}

// Whether the place stands beside the one looked at before, which is one of those that showed free.
fn follows(places: &PlaceMap, together: u8, before: PlaceNo, place: PlaceNo) -> bool
    ensures { result ≡ (nat_lt 0 together && stands_beside places.now before.0 place.0) }
{
    together > 0 && is_beside(places, before, place)
}

// How many of the last candidates looked at stand side by side and showed free, after one more.
fn grown(together: u8, is_free: bool, follows: bool) -> u8
    requires few { together < 255 }
    ensures { result ≡ next_together together is_free follows }
{
    match (is_free, follows) {
        (true, true) => together + 1,
        (true, false) => 1,
        (false, _) => 0,
    }
}

// Looks at the candidates in order, until the last `count` of them stand side by side and showed free: how many it
// looked at.
pub(crate) fn find_stretch(
    places: &PlaceMap,
    books: &Books,
    desk: &mut Desk,
    candidates: &[PlaceNo],
    span: Span,
    count: u8,
) -> Option<usize>
    requires own { IsOf books.now desk.old }
    requires places { All (λ p. p.0 < length books.now.layout.legs) candidates.now }
    requires some { 1 ≤ count }
    ensures own { IsOf books.now desk.new }
    ensures found { IfSome result (λ n.
        AddsStepsBy (FindsAt places.now count span (map place_number candidates.now) n) desk.old desk.new) }
    ensures none { IfNone result
        (AddsStepsBy (FindsNothing places.now count span (map place_number candidates.now)) desk.old desk.new) }
    ensures within { IfSome result (λ n. (count ≤ n) × (n ≤ length candidates.now)) }
    ensures holds { KeepsHolds desk.old desk.new }
    ensures endings { KeepsEndings desk.old desk.new }
{
    let mut together = 0;
    let mut before = PlaceNo(0);
    for at in 0..candidates.len() {
        let place = candidates[at];
        let is_free = is_free(books, desk, place, span);
        together = grown(together, is_free, follows(places, together, before, place));
        if together == count {
            return Some(at + 1);
        }
        before = place;
    }
    None
}
