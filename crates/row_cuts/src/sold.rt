//! How many places are sold, by looks.
ghost use Rattle.std.specs.Prelude.{◌≡◌, ◌<◌, ◌≤◌, ◌==◌, ◌&&◌, length, not};
ghost use Rattle.leg_masks.specs.Interval.{most_places};
ghost use Rattle.claim_rule.specs.Calls.{AddsStepsBy};
ghost use Rattle.claim_rule.specs.Desks.{IsOf};
ghost use Rattle.claim_rule.specs.Out.{AllLooks, IsTidy, KeepsEndings, KeepsHolds};
ghost use Rattle.row_cuts.specs.Sold.{AreFewSold, CountsSold, ShowsPlace, with_place};

use claim_rule::{Books, Desk};
use place_map::{Class, Place};
use rail_ids::PlaceNo;

/// How many places of each class were seen with a leg taken: sold, or held by a booking that was being made or ended.
#[derive(Clone, Copy, PartialEq, Eq)]
pub struct SoldCount {
    pub first: u32,
    pub second: u32,
}

/// Looks at both halves of each of these places once, in rising number, and counts those with a leg taken. The
/// places are those of the books, from the first one on. While other desks step, two looks may be of two moments.
pub fn count_sold(places: &[Place], books: &Books, desk: &mut Desk) -> SoldCount
    requires own { IsOf books.now desk.old }
    requires places { length places.now ≤ length books.now.layout.legs }
    ensures own { IsOf books.now desk.new }
    ensures counts { AddsStepsBy (CountsSold places.now result) desk.old desk.new }
    ensures looks { AddsStepsBy AllLooks desk.old desk.new }
    ensures holds { KeepsHolds desk.old desk.new }
    ensures endings { KeepsEndings desk.old desk.new }
    ensures tidy { IsTidy desk.old → IsTidy desk.new }
{
    let _most = books.places();
    let mut count = SoldCount {
        first: 0,
        second: 0,
    };
    for number in 0..places.len() {
        let is_sold = look_sold(books, desk, PlaceNo(number as u32));
        count = counted(places[number].class, is_sold, count);
    }
    count
}

// Whether looks at both halves of a place show a leg taken.
fn look_sold(books: &Books, desk: &mut Desk, place: PlaceNo) -> bool
    requires own { IsOf books.now desk.old }
    requires place { place.0 < length books.now.layout.legs }
    ensures own { IsOf books.now desk.new }
    ensures shows { AddsStepsBy (ShowsPlace place.0 result) desk.old desk.new }
    ensures holds { KeepsHolds desk.old desk.new }
    ensures endings { KeepsEndings desk.old desk.new }
{
    let low = books.step_look(desk, place, 0);
    let high = books.step_look(desk, place, 1);
    has_leg(low, high)
}

// Whether a leg is set in one of the words of the halves.
fn has_leg(low: u64, high: u64) -> bool
    ensures { result ≡ not ((low == 0) && (high == 0)) }
{
    low != 0 || high != 0
}

// One place more, of this class.
fn counted(class: Class, is_sold: bool, count: SoldCount) -> SoldCount
    requires few { AreFewSold count most_places }
    ensures { result ≡ with_place class is_sold count }
{
    if !is_sold {
        return count;
    }
    match class {
        Class::First => SoldCount {
            first: count.first + 1,
            ..count
        },
        Class::Second => SoldCount {
            second: count.second + 1,
            ..count
        },
    }
}
