//! Copies of codes.
ghost use Rattle.std.specs.Prelude.{◌≡◌};
ghost use Rattle.offer_codes.specs.Offers.{offer_view};
ghost use Rattle.offer_codes.specs.Exchanges.{exchange_view};

use arrayvec::ArrayVec;
use offer_codes::{ExchangeCode, OfferCode};

/// A copy of an offer's code.
pub(crate) fn copy_of_offer(offer: &OfferCode) -> OfferCode
    ensures same { offer_view result ≡ offer_view offer.now }
{
    let mut segments = ArrayVec::new();
    let _copied = segments.try_extend_from_slice(offer.segments.as_slice());
    OfferCode {
        made: offer.made,
        adults: offer.adults,
        children: offer.children,
        class: offer.class,
        wanted: offer.wanted,
        segments,
    }
}

/// A copy of an exchange's code.
pub(crate) fn copy_of_exchange(code: &ExchangeCode) -> ExchangeCode
    ensures same { exchange_view result ≡ exchange_view code.now }
{
    ExchangeCode {
        row: code.row,
        made: code.made,
        fulfilled: code.fulfilled,
        difference: code.difference,
        offer: copy_of_offer(&code.offer),
    }
}
