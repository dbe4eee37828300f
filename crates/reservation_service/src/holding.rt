//! Holding a place for each passenger at each segment of an offer.
ghost use Rattle.std.specs.Prelude.{◌≡◌, [], true, false, IfSome, IfNone};
ghost use Rattle.std.specs.List.{list_all, AllByRecursion};
ghost use Rattle.place_map.specs.Candidates.{candidates_of, IsOfRun, AreRising};
ghost use Rattle.offer_codes.specs.Offers.{is_party, offer_view};
ghost use Rattle.offer_prices.specs.Runs.{is_of_runs};
ghost use Rattle.claim_rule.specs.Out.{HasNotedItems};
ghost use Rattle.shop.specs.Homes.{IsAtHome};
ghost use Rattle.reservation_service.specs.Outs.{IsOutAt, StaysOut};
ghost use Rattle.reservation_service.specs.Holding.{PlacesAll, HoldsPlaces, FindsNoRow, placing_of as placing_of_added, placing_of_party as placing_of_party_added, problem_of};
ghost use Rattle.reservation_service.specs.Segments.{reserving, MayPlace, Places};

use crate::wanting::{Wanted, add_wanted};
use booking_rows::start_hold;
use claim_rule::{Desk, Hold};
use hold_core::{Added, add_places};
use offer_codes::{OfferCode, Segment};
use osdm_texts::Problem;
use party_places::{PartyAdded, add_party};
use rail_ids::PlaceNo;
use shop::Shop;

/// How the placing of an offer ended.
#[derive(Clone, Copy, PartialEq, Eq)]
pub enum Placing {
    /// Each segment has all its places.
    Whole,
    /// There were too few places for a segment.
    Short,
    /// A place of a segment was contended.
    Contended,
    /// There was no memory for the candidates of a segment.
    NoMemory,
}

impl Placing {
    /// What is wrong with it: `None` exactly for `Whole`.
    pub fn problem(self) -> Option<Problem>
        ensures { result ≡ problem_of self }
    {
        match self {
            Placing::Whole => None,
            Placing::Short => Some(Problem::NoPlace),
            Placing::Contended => Some(Problem::Contended),
            Placing::NoMemory => Some(Problem::NoMemory),
        }
    }
}

/// A hold with what came of placing an offer on it.
pub struct Held {
    pub hold: Hold,
    pub placing: Placing,
}

/// Starts a hold, and adds a place for each passenger at each segment in order, up to the first segment that lacks one:
/// an item for each piece of the segment's span. Where they are to sit together, a segment gets neighbours in one coach
/// if it can. `None` where no row is free, and none has an ended booking that may be followed by another.
///
/// The books have the catalogue's places, each segment's run holds its span, and there are one to eight passengers. A
/// hold keeps what it won: after another placing than `Whole` the caller abandons it. Inlined, since a hold is large to
/// hand on.
#[inline(always)]
pub fn hold_places(
    shop: &Shop<'_>,
    desk: &mut Desk,
    offer: &OfferCode,
    together: bool,
) -> Option<Held>
    requires home { IsAtHome shop.now.books.now desk.old }
    requires party { is_party offer.now.adults offer.now.children ≡ true }
    requires runs { list_all (is_of_runs shop.now.cat.now.runs) offer.now.segments.items ≡ true }
    ensures placed { IfSome result (λ held. HoldsPlaces shop.now.cat.now (offer_view offer.now) together
        offer.now.segments.items held.hold.row held.placing held.hold.items desk.old desk.new) }
    ensures out { IfSome result (λ held. StaysOut shop.now.books.now desk.old desk.new held.hold) }
    ensures noted { IfSome result (λ held. HasNotedItems desk.new held.hold) }
    ensures no_row { IfNone result (FindsNoRow desk.old desk.new) }
    ensures home { IfNone result (IsAtHome shop.now.books.now desk.new) }
{
    let mut hold = start_hold(shop.books, desk)?;
    let placing = place_segments(shop, desk, &mut hold, offer, together);
    Some(Held { hold, placing })
}

/// Adds places for each segment to a hold without items.
pub(crate) fn place_segments(
    shop: &Shop<'_>,
    desk: &mut Desk,
    hold: &mut Hold,
    offer: &OfferCode,
    together: bool,
) -> Placing
    requires out { IsOutAt shop.now.books.now desk.old hold.old }
    requires noted { HasNotedItems desk.old hold.old }
    requires empty { hold.old.items ≡ [] }
    requires party { is_party offer.now.adults offer.now.children ≡ true }
    requires runs { list_all (is_of_runs shop.now.cat.now.runs) offer.now.segments.items ≡ true }
    ensures out { StaysOut shop.now.books.now desk.old desk.new hold.new }
    ensures noted { HasNotedItems desk.new hold.new }
    ensures row { hold.new.row ≡ hold.old.row }
    ensures placed { PlacesAll shop.now.cat.now (offer_view offer.now) together hold.old.row [] offer.now.segments.items
        result hold.new.items desk.old desk.new }
{
    for segment in offer.segments.as_slice() {
        match place_segment(shop, desk, hold, offer, *segment, together) {
            Placing::Whole => {}
            stopped => return stopped,
        }
    }
    Placing::Whole
}

// Adds places for one segment to the hold: side by side where that is wished, else one by one.
fn place_segment(
    shop: &Shop<'_>,
    desk: &mut Desk,
    hold: &mut Hold,
    offer: &OfferCode,
    segment: Segment,
    together: bool,
) -> Placing
    requires may { MayPlace (reserving shop.now offer.now together) segment desk.old hold.old }
    ensures placed { Places (reserving shop.now offer.now together) segment result
        (desk.old, hold.old) (desk.new, hold.new) }
{
    if together {
        place_party(shop, desk, hold, offer, segment)
    } else {
        place_apart(shop, desk, hold, offer, segment)
    }
}

// Adds places for one segment to the hold, one by one. No memory is taken.
fn place_apart(
    shop: &Shop<'_>,
    desk: &mut Desk,
    hold: &mut Hold,
    offer: &OfferCode,
    segment: Segment,
) -> Placing
    requires may { MayPlace (reserving shop.now offer.now false) segment desk.old hold.old }
    ensures placed { Places (reserving shop.now offer.now false) segment result
        (desk.old, hold.old) (desk.new, hold.new) }
{
    let all = shop.cat.places().class_places(segment.run, offer.class);
    let count = offer.adults + offer.children;
    if offer.wanted == 0 {
        return placing_of(add_places(shop.books, desk, hold, all, segment.span, count));
    }
    let wanted = Wanted {
        span: segment.span,
        count,
        traits: offer.wanted,
    };
    placing_of(add_wanted(shop, desk, hold, all, &wanted))
}

// Adds places for one segment to the hold, side by side. Those with wanted traits are listed first.
fn place_party(
    shop: &Shop<'_>,
    desk: &mut Desk,
    hold: &mut Hold,
    offer: &OfferCode,
    segment: Segment,
) -> Placing
    requires may { MayPlace (reserving shop.now offer.now true) segment desk.old hold.old }
    ensures placed { Places (reserving shop.now offer.now true) segment result
        (desk.old, hold.old) (desk.new, hold.new) }
{
    let places = shop.cat.places();
    if offer.wanted == 0 {
        let all = places.class_places(segment.run, offer.class);
        return place_among(shop, desk, hold, offer, segment, all);
    }
    match places.candidates(shop.alloc, segment.run, offer.class, offer.wanted) {
        Ok(some) => place_among(shop, desk, hold, offer, segment, some.as_slice()),
        Err(_) => Placing::NoMemory,
    }
}

// Adds places for one segment to the hold, side by side, out of its candidates.
fn place_among(
    shop: &Shop<'_>,
    desk: &mut Desk,
    hold: &mut Hold,
    offer: &OfferCode,
    segment: Segment,
    candidates: &[PlaceNo],
) -> Placing
    requires may { MayPlace (reserving shop.now offer.now true) segment desk.old hold.old }
    requires candidates { candidates.now
        ≡ candidates_of segment.run.0 offer.now.class offer.now.wanted shop.now.cat.now.places }
    requires of_run { AllByRecursion (IsOfRun segment.run.0 shop.now.cat.now.places) candidates.now }
    requires rising { AreRising 0 candidates.now }
    ensures placed { Places (reserving shop.now offer.now true) segment result
        (desk.old, hold.old) (desk.new, hold.new) }
{
    let places = shop.cat.places();
    let span = segment.span;
    let party = offer.adults + offer.children;
    placing_of_party(add_party(places, shop.books, desk, hold, candidates, span, party))
}

// What an answer means for a segment whose places were added one by one.
fn placing_of(added: Added) -> Placing
    ensures { result ≡ placing_of_added added }
{
    match added {
        Added::All => Placing::Whole,
        Added::NoPlace { won: _ } => Placing::Short,
        Added::Contended { place: _ } => Placing::Contended,
    }
}

// What an answer means for a segment whose places were added for a party.
fn placing_of_party(added: PartyAdded) -> Placing
    ensures { result ≡ placing_of_party_added added }
{
    match added {
        PartyAdded::Together { first: _ } | PartyAdded::Apart => Placing::Whole,
        PartyAdded::NoPlace { won: _ } => Placing::Short,
        PartyAdded::Contended { place: _ } => Placing::Contended,
    }
}
