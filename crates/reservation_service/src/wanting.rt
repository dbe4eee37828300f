//! Taking places with wanted traits out of a run's places, without a list of them.
ghost use Rattle.std.specs.Prelude.{◌≡◌, ◌+◌, ◌*◌, ◌<◌, ◌≤◌, All, filter, length, map, slice_index, IfSome, IfNone, true, false};
ghost use Rattle.history_model.specs.Booking.{most_items};
ghost use Rattle.leg_masks.specs.Interval.{pieces};
ghost use Rattle.place_map.specs.ByClass.{has_traits as has_traits_of};
ghost use Rattle.claim_rule.specs.Out.{HasNotedItems};
ghost use Rattle.hold_core.specs.Tries.{TriesPlace, place_number};
ghost use Rattle.hold_core.specs.Places.{AddsPlaces};
ghost use Rattle.reservation_service.specs.Outs.{IsOutAt, StaysOut};

use claim_rule::{Books, Desk, Hold};
use hold_core::{Added, Outcome, add_places};
use leg_masks::Span;
use place_map::Place;
use rail_ids::PlaceNo;
use shop::Shop;

/// What is wanted of a run's places.
#[derive(Clone, Copy)]
pub(crate) struct Wanted {
    pub span: Span,
    /// How many places.
    pub count: u8,
    /// The traits that each place has, as a mask.
    pub traits: u8,
}

fn has_traits(places: &[Place], place: PlaceNo, wanted: u8) -> bool
    requires known { place.0 < length places.now }
    ensures value { result ≡ has_traits_of wanted places.now place }
{
    places[place.0 as usize].traits & wanted == wanted
}

// Tries one place.
fn try_one(books: &Books, desk: &mut Desk, hold: &mut Hold, place: PlaceNo, span: Span) -> Outcome
    requires out { IsOutAt books.now desk.old hold.old }
    requires place { place.0 < length books.now.layout.legs }
    requires legs { span.to ≤ slice_index books.now.layout.legs place.0 }
    requires room { length hold.old.items + length (pieces span) ≤ most_items }
    ensures out { StaysOut books.now desk.old desk.new hold.new }
    ensures tried { TriesPlace desk.old hold.old place.0 span desk.new hold.new result }
    ensures noted { HasNotedItems desk.old hold.old → HasNotedItems desk.new hold.new }
{
    match add_places(books, desk, hold, &[place], span, 1) {
        Added::All => Outcome::Won,
        Added::NoPlace { won: _ } => Outcome::Refused,
        Added::Contended { place: _ } => Outcome::Contended,
    }
}

// Tries the place where it has the traits: `None` where it hasn't, and is let be.
fn try_wanted(
    books: &Books,
    places: &[Place],
    desk: &mut Desk,
    hold: &mut Hold,
    place: PlaceNo,
    wanted: &Wanted,
) -> Option<Outcome>
    requires out { IsOutAt books.now desk.old hold.old }
    requires known { place.0 < length places.now }
    requires place { place.0 < length books.now.layout.legs }
    requires legs { wanted.now.span.to ≤ slice_index books.now.layout.legs place.0 }
    requires room { length hold.old.items + length (pieces wanted.now.span) ≤ most_items }
    ensures out { StaysOut books.now desk.old desk.new hold.new }
    ensures tried { IfSome result (λ o. (has_traits_of wanted.now.traits places.now place ≡ true)
        × TriesPlace desk.old hold.old place.0 wanted.now.span desk.new hold.new o) }
    ensures let_be { IfNone result ((has_traits_of wanted.now.traits places.now place ≡ false)
        × (desk.new ≡ desk.old) × (hold.new ≡ hold.old)) }
    ensures noted { HasNotedItems desk.old hold.old → HasNotedItems desk.new hold.new }
{
    if !has_traits(places, place, wanted.traits) {
        return None;
    }
    Some(try_one(books, desk, hold, place, wanted.span))
}

/// Goes through the places in order, and adds to the hold those that have the traits and are won on all legs of the
/// span, until as many are won as are wanted. It does what `add_places` does with a list of those that have the traits.
pub(crate) fn add_wanted(
    shop: &Shop<'_>,
    desk: &mut Desk,
    hold: &mut Hold,
    all: &[PlaceNo],
    wanted: &Wanted,
) -> Added
    requires out { IsOutAt shop.now.books.now desk.old hold.old }
    requires known { All (λ p. p.0 < length shop.now.cat.now.places) all.now }
    requires places { All (λ p. (p.0 < length shop.now.books.now.layout.legs)
        × (wanted.now.span.to ≤ slice_index shop.now.books.now.layout.legs p.0)) all.now }
    requires some { 1 ≤ wanted.now.count }
    requires room { length hold.old.items + wanted.now.count * length (pieces wanted.now.span) ≤ most_items }
    ensures out { StaysOut shop.now.books.now desk.old desk.new hold.new }
    ensures entries { AddsPlaces desk.old hold.old wanted.now.span wanted.now.count
        (map place_number (filter (has_traits_of wanted.now.traits shop.now.cat.now.places) all.now))
        result desk.new hold.new }
    ensures noted { HasNotedItems desk.old hold.old → HasNotedItems desk.new hold.new }
{
    let places = shop.cat.places().all();
    let count = wanted.count;
    let mut won = 0;
    for place in all {
        match try_wanted(shop.books, places, desk, hold, *place, wanted) {
            None => {}
            Some(Outcome::Refused) => {}
            Some(Outcome::Contended) => return Added::Contended { place: *place },
            Some(Outcome::Won) => {
                won += 1;
                if won == count {
                    return Added::All;
                }
            }
        }
    }
    Added::NoPlace { won }
}
