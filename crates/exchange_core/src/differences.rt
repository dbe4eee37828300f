//! What an offer costs more than a booking is worth.
ghost use Rattle.std.specs.Prelude.{◌≡◌, ◌≤◌, ◌≤ℤ◌, pos, negsuc, true};
ghost use Rattle.history_model.specs.Booking.{greatest_amount};
ghost use Rattle.offer_codes.specs.Offers.{is_offer, offer_view};
ghost use Rattle.exchange_core.specs.Exchanges.{difference_at as difference_of};

use booking_rows::RowView;
use catalogue_contents::Catalogue;
use offer_codes::OfferCode;
use offer_prices::price_of_offer;
use rail_time::Moment;
use refund_core::refund_at;
use tariff::exchange_difference;

/// What the offer costs more, with the exchange fee, than the booking was worth at this moment, where its ticket was
/// then collected or not. In minor units; below 0 where money goes back.
pub(crate) fn difference_at(
    cat: &Catalogue,
    view: &RowView,
    made: Moment,
    fulfilled: bool,
    offer: &OfferCode,
) -> i64
    requires total { view.now.total ≤ greatest_amount }
    requires offer { is_offer (offer_view offer.now) ≡ true }
    ensures value { result ≡ difference_of cat.now view.now made fulfilled (offer_view offer.now) }
    ensures least { negsuc 99_999_999_998 ≤ℤ result }
    ensures most { result ≤ℤ pos 99_999_999_999 }
{
    let worth = refund_at(cat, view, made, fulfilled);
    let cost = price_of_offer(cat, offer);
    exchange_difference(cat.terms(), worth, cost)
}
