//! Moments and ids as texts.
ghost use Rattle.std.specs.Prelude.{◌≡◌, IsAscii, true};
ghost use Rattle.offer_codes.specs.Offers.{is_offer, offer_view};
ghost use Rattle.offer_codes.specs.Refunds.{is_refund};
ghost use Rattle.offer_codes.specs.Exchanges.{is_exchange, exchange_view};
ghost use Rattle.osdm_parts.specs.Times.{time_text as time_text_of};
ghost use Rattle.osdm_parts.specs.Ids.{HasId, booking_id as booking_id_of, offer_id as offer_id_of, refund_id as refund_id_of, exchange_id as exchange_id_of};

use arrayvec::ArrayVec;
use offer_codes::{ExchangeCode, OfferCode, RefundCode, write_exchange, write_offer, write_refund};
use rail_ids::{BookingId, RowNo, write_booking_id};
use rail_time::{Moment, write_moment};
use std::str;

/// The bytes as text.
pub(crate) fn text_of(bytes: &[u8]) -> &str
    requires { IsAscii bytes.now }
    ensures { result.now ≡ bytes.now }
{
    unsafe { str::from_utf8_unchecked(bytes) }
}

pub(crate) fn time_text(moment: Moment) -> [u8; 20]
    ensures text { result ≡ time_text_of moment }
    ensures ascii { IsAscii result }
{
    write_moment(moment)
}

pub(crate) fn booking_id(row: RowNo) -> BookingId
    requires generation { HasId row }
    ensures text { result.items ≡ booking_id_of row }
    ensures ascii { IsAscii result.items }
{
    write_booking_id(row)
}

pub(crate) fn offer_id(code: &OfferCode) -> ArrayVec<u8, 128>
    requires ranges { is_offer (offer_view code.now) ≡ true }
    ensures text { result.items ≡ offer_id_of (offer_view code.now) }
    ensures ascii { IsAscii result.items }
{
    write_offer(code)
}

pub(crate) fn refund_id(code: &RefundCode) -> ArrayVec<u8, 128>
    requires ranges { is_refund code.now ≡ true }
    ensures text { result.items ≡ refund_id_of code.now }
    ensures ascii { IsAscii result.items }
{
    write_refund(code)
}

pub(crate) fn exchange_id(code: &ExchangeCode) -> ArrayVec<u8, 128>
    requires ranges { is_exchange (exchange_view code.now) ≡ true }
    ensures text { result.items ≡ exchange_id_of (exchange_view code.now) }
    ensures ascii { IsAscii result.items }
{
    write_exchange(code)
}
