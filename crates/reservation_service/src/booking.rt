//! Booking an offer, and reserving places of one segment.
ghost use Rattle.std.specs.Prelude.{◌≡◌, ◌≤◌, [], true, length, Ok, IfSome, IfOk, IfErr};
ghost use Rattle.std.specs.List.{list_all};
ghost use Rattle.offer_codes.specs.Offers.{is_party, offer_view};
ghost use Rattle.offer_prices.specs.Runs.{is_of_runs};
ghost use Rattle.history_model.specs.Booking.{most_items};
ghost use Rattle.history_model.specs.declared.phase.Phase.TheVariants as phase;
ghost use Rattle.leg_masks.specs.Interval.{PlacedSpan};
ghost use Rattle.claim_rule.specs.Out.{HasNotedItems, IsToBeSealed};
ghost use Rattle.shop.specs.Homes.{IsAtHome, StaysHome};
ghost use Rattle.osdm_texts.specs.Answers.{created, reply_told, told_of};
ghost use Rattle.osdm_parts.specs.Ids.{HasId};
ghost use Rattle.osdm_texts.specs.Seen.{made_view};
ghost use Rattle.reservation_service.specs.Outs.{IsOutAt, StaysOut};
ghost use Rattle.reservation_service.specs.Reserving.{MakesReady, FallsShort, AnswersReserving, reserved};

use crate::details::detail_for;
use crate::holding::place_segments;
use arrayvec::ArrayVec;
use booking_rows::{Detail, RowView, Sealed, note_detail, seal, start_hold};
use claim_rule::{Desk, Hold};
use history_model::booking::MOST_ITEMS;
use history_model::phase::Phase;
use hold_core::abandon;
use leg_masks::Item;
use offer_codes::{OfferCode, Segment};
use osdm_texts::{Problem, Written, write_prebooked};
use place_map::Class;
use shop::{Asker, Shop};

/// Books the places of an offer for a retailer (OSDM's prebooking): one for each passenger at each segment, or none.
/// Where they are to sit together, they sit apart at a segment only where each stretch of its candidates had a place
/// with a leg that was taken or contended when it was looked at or tried.
///
/// The booking can be confirmed from the asker's moment on for the time that the catalogue gives. The books have the
/// catalogue's places, each segment's run holds its span, and there are one to eight passengers and one to three
/// segments.
pub fn book_offer(
    shop: &Shop<'_>,
    desk: &mut Desk,
    asker: Asker,
    offer: &OfferCode,
    together: bool,
) -> Result<Written, Problem>
    requires home { IsAtHome shop.now.books.now desk.old }
    requires party { is_party offer.now.adults offer.now.children ≡ true }
    requires some { 1 ≤ length offer.now.segments.items }
    requires runs { list_all (is_of_runs shop.now.cat.now.runs) offer.now.segments.items ≡ true }
    ensures home { StaysHome shop.now.books.now desk.old desk.new }
    ensures answer { AnswersReserving shop.now.cat.now asker.retailer.0 asker.moment (offer_view offer.now) together
        desk.old desk.new (told_of result) }
{
    let Some(mut hold) = start_hold(shop.books, desk) else {
        return Err(Problem::RowsFull);
    };
    match make_ready(shop, desk, &mut hold, asker, offer, together) {
        Ok(ready) => {
            let _row = seal(shop.books, desk, hold, Sealed::Prebooked);
            Ok(ready)
        }
        Err(problem) => {
            abandon(shop.books, desk, hold);
            Err(problem)
        }
    }
}

/// Places of one segment that are wanted without an offer.
#[derive(Clone, Copy, PartialEq, Eq)]
pub struct Reservation {
    pub segment: Segment,
    pub class: Class,
    /// How many places: 1 to 8.
    pub count: u8,
    /// The traits that each place has, as a mask.
    pub traits: u8,
    /// Whether the places are to lie side by side. They lie apart only where each stretch of places had one with a leg
    /// that was taken or contended when it was looked at or tried.
    pub together: bool,
}

/// Reserves places of one segment, without an offer.
///
/// It is the booking of an offer of this segment alone, made at the asker's moment, with all passengers as adults. The
/// books have the catalogue's places, the segment's run holds its span, and the count is one to eight.
pub fn reserve_places(
    shop: &Shop<'_>,
    desk: &mut Desk,
    asker: Asker,
    reservation: Reservation,
) -> Result<Written, Problem>
    requires home { IsAtHome shop.now.books.now desk.old }
    requires party { is_party reservation.count 0 ≡ true }
    requires run { is_of_runs shop.now.cat.now.runs reservation.segment ≡ true }
    ensures home { StaysHome shop.now.books.now desk.old desk.new }
    ensures answer { AnswersReserving shop.now.cat.now asker.retailer.0 asker.moment
        (reserved reservation.segment reservation.class reservation.count reservation.traits asker.moment)
        reservation.together desk.old desk.new (told_of result) }
{
    let mut segments = ArrayVec::new();
    segments.push(reservation.segment);
    let offer = OfferCode {
        made: asker.moment,
        adults: reservation.count,
        children: 0,
        class: reservation.class,
        wanted: reservation.traits,
        segments,
    };
    book_offer(shop, desk, asker, &offer, reservation.together)
}

// Adds the places of an offer to a hold without items, and notes the booking's detail once its whole answer is written.
// A hold keeps what it won: where this fails the caller abandons it. It is handed in, since it is large to hand on.
fn make_ready(
    shop: &Shop<'_>,
    desk: &mut Desk,
    hold: &mut Hold,
    asker: Asker,
    offer: &OfferCode,
    together: bool,
) -> Result<Written, Problem>
    requires out { IsOutAt shop.now.books.now desk.old hold.old }
    requires noted { HasNotedItems desk.old hold.old }
    requires empty { hold.old.items ≡ [] }
    requires party { is_party offer.now.adults offer.now.children ≡ true }
    requires some { 1 ≤ length offer.now.segments.items }
    requires runs { list_all (is_of_runs shop.now.cat.now.runs) offer.now.segments.items ≡ true }
    ensures out { StaysOut shop.now.books.now desk.old desk.new hold.new }
    ensures row { hold.new.row ≡ hold.old.row }
    ensures sealable { IfOk result (λ written. IsToBeSealed desk.new hold.new) }
    ensures made { IfOk result (λ written. MakesReady shop.now.cat.now asker.retailer.0 asker.moment
        (offer_view offer.now) together hold.new.row hold.new.items desk.old desk.new
        (told_of (Ok written))) }
    ensures failed { IfErr result (λ why. FallsShort shop.now.cat.now (offer_view offer.now) together
        hold.new.row hold.new.items why desk.old desk.new) }
{
    match place_segments(shop, desk, hold, offer, together).problem() {
        Some(problem) => return Err(problem),
        None => {}
    }
    let detail = detail_for(shop.cat, offer, asker);
    let Some(ready) = created_answer(shop, hold, &detail) else {
        return Err(Problem::NoMemory);
    };
    note_detail(shop.books, desk, hold, detail);
    Ok(ready)
}

// The text that shows the booking that a hold will be with this detail, or `None` where there is no memory for it.
fn created_answer(shop: &Shop<'_>, hold: &Hold, detail: &Detail) -> Option<Written>
    requires id { HasId hold.now.row }
    ensures told { IfSome result (λ written. told_of (Ok written) ≡ reply_told shop.now.cat.now
        (created hold.now.row (made_view phase.Prebooked detail.now hold.now.items))) }
{
    write_prebooked(shop.alloc, shop.cat, hold.row(), detail, hold.items())
}

/// The new booking in this phase, as its answer shows it.
pub fn new_view(phase: Phase, items: &[Item], detail: &Detail) -> RowView
    requires few { length items.now ≤ most_items }
    ensures view { result ≡ made_view phase detail.now items.now }
{
    let mut copied = ArrayVec::new();
    let _copied = copied.try_extend_from_slice(items);
    RowView {
        phase,
        retailer: detail.retailer,
        limit: detail.limit,
        total: detail.total,
        items: copied,
        ended: None,
    }
}
