//! What is noted of a new booking.
ghost use Rattle.std.specs.Prelude.{◌≡◌, ◌≤◌, true};
ghost use Rattle.offer_codes.specs.Offers.{is_party, offer_view};
ghost use Rattle.history_model.specs.Booking.{greatest_amount};
ghost use Rattle.reservation_service.specs.Reserving.{detail_of};

use booking_rows::Detail;
use catalogue_contents::Catalogue;
use offer_codes::OfferCode;
use offer_prices::price_of_offer;
use shop::Asker;

/// The detail of a booking of the offer that is made at the asker's moment: its retailer, the sum of the prices of its
/// segments, and the moment up to which it can be confirmed. There are one to eight passengers.
pub fn detail_for(cat: &Catalogue, offer: &OfferCode, asker: Asker) -> Detail
    requires party { is_party offer.now.adults offer.now.children ≡ true }
    ensures detail { result ≡ detail_of cat.now (offer_view offer.now) asker.retailer.0 asker.moment }
    ensures total { result.total ≤ greatest_amount }
{
    Detail {
        retailer: asker.retailer,
        limit: asker.moment.later(cat.terms().confirm_seconds()),
        total: price_of_offer(cat, offer),
    }
}
