ghost use Rattle.std.specs.Prelude.{◌≡◌, max, true, IfOk, OnErr};
ghost use Rattle.offer_codes.specs.Offers.{is_party};
ghost use Rattle.claim_rule.specs.Desks.{IsOf};
ghost use Rattle.claim_rule.specs.Calls.{AddsStepsBy};
ghost use Rattle.claim_rule.specs.Out.{KeepsHolds, KeepsEndings, IsTidy};
ghost use Rattle.catalogue_contents.specs.Contents.{legs_in};
ghost use Rattle.offer_engine.specs.Offers.{raised as raised_of, MakesOffers, BeginsMaking, IsOfferFor};

use crate::counts::count_segments;
use crate::wish::OfferWish;
use catalogue_contents::Catalogue;
use claim_rule::{Books, Desk};
use offer_codes::{Offer, OfferCode};
use offer_prices::price_of_offer;
use rail_time::Moment;
use std::alloc::{AllocError, Global};
use trip_builder::{Trip, TripWish, trips};

/// One offer for each trip of the wish, in the order of the trips, where the wish's earliest departure is raised to
/// now.
///
/// An offer's code has now as the moment when it was made, the trip's segments, and the wish's passengers, class and
/// traits. Its price is the sum of the prices of its segments, and `free` holds for each segment how many of its wanted
/// places were free on it, by a look of this call at each piece of each. There are one to eight passengers, `wanted` is
/// at most 31, and the books have the catalogue's places.
///
/// Where there is no memory, the desk has made the looks of the first segments.
pub fn offers(
    alloc: Global,
    cat: &Catalogue,
    books: &Books,
    desk: &mut Desk,
    wish: &OfferWish,
    now: Moment,
) -> Result<Vec<Offer>, AllocError>
    requires own { IsOf books.now desk.old }
    requires legs { books.now.layout.legs ≡ legs_in cat.now }
    requires party { is_party wish.now.adults wish.now.children ≡ true }
    ensures own { IsOf books.now desk.new }
    ensures entries { IfOk result (λ v. AddsStepsBy (MakesOffers cat.now wish.now now v.items) desk.old desk.new) }
    ensures begun { OnErr result (AddsStepsBy (BeginsMaking cat.now wish.now now) desk.old desk.new) }
    ensures holds { KeepsHolds desk.old desk.new }
    ensures endings { KeepsEndings desk.old desk.new }
    ensures tidy { IsTidy desk.old → IsTidy desk.new }
{
    let found = trips(alloc, cat.runs(), &raised(&wish.trip, now))?;
    let mut offers = Vec::new(alloc);
    for trip in &found {
        offers.push(offer_of(cat, books, desk, wish, trip, now))?;
    }
    Ok(offers)
}

// The wish from this moment on.
fn raised(trip: &TripWish, now: Moment) -> TripWish
    ensures { result ≡ raised_of trip.now now }
{
    TripWish {
        earliest: trip.earliest.max(now),
        ..*trip
    }
}

// The offer of a trip. Takes no memory.
fn offer_of(
    cat: &Catalogue,
    books: &Books,
    desk: &mut Desk,
    wish: &OfferWish,
    trip: &Trip,
    now: Moment,
) -> Offer
    requires own { IsOf books.now desk.old }
    requires legs { books.now.layout.legs ≡ legs_in cat.now }
    requires party { is_party wish.now.adults wish.now.children ≡ true }
    ensures own { IsOf books.now desk.new }
    ensures entries { AddsStepsBy (IsOfferFor cat.now wish.now now trip.now result) desk.old desk.new }
    ensures holds { KeepsHolds desk.old desk.new }
    ensures endings { KeepsEndings desk.old desk.new }
    ensures tidy { IsTidy desk.old → IsTidy desk.new }
{
    let segments = trip.segments();
    let free = count_segments(cat, books, desk, wish, segments);
    let code = OfferCode {
        made: now,
        adults: wish.adults,
        children: wish.children,
        class: wish.class,
        wanted: wish.wanted,
        segments: trip.copied_segments(),
    };
    let price = price_of_offer(cat, &code);
    Offer { code, price, free }
}
