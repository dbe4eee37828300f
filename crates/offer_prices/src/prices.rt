//! What an offer costs.
ghost use Rattle.std.specs.Prelude.{◌≡◌, ◌≤◌, ◌*◌, true};
ghost use Rattle.offer_codes.specs.Offers.{is_party, offer_view};
ghost use Rattle.tariff.specs.Prices.{greatest_price};
ghost use Rattle.offer_prices.specs.Prices.{offer_price, segment_price};

use catalogue_contents::Catalogue;
use offer_codes::{OfferCode, Segment};
use tariff::{Fare, price};

/// The price of an offer's segments for all its passengers, in minor units. A segment of no run of the catalogue costs
/// nothing.
pub fn price_of_offer(cat: &Catalogue, offer: &OfferCode) -> u64
    requires party { is_party offer.now.adults offer.now.children ≡ true }
    ensures price { result ≡ offer_price cat.now (offer_view offer.now) }
    ensures bound { result ≤ 3 * greatest_price }
{
    let mut total = 0;
    for segment in offer.segments.as_slice() {
        total += price_of_segment(cat, offer, segment);
    }
    total
}

fn price_of_segment(cat: &Catalogue, offer: &OfferCode, segment: &Segment) -> u64
    requires party { is_party offer.now.adults offer.now.children ≡ true }
    ensures price { result ≡ segment_price cat.now offer.now.class offer.now.adults offer.now.children segment.now }
    ensures bound { result ≤ greatest_price }
{
    let fare = match cat.fare(segment.run, offer.class) {
        Some(fare) => fare,
        None => Fare::new(0, 0),
    };
    let legs = segment.span.to() - segment.span.from();
    price(fare, legs, offer.adults, offer.children)
}
