//! Ids and codes as they stand in paths and bodies.
ghost use Rattle.std.specs.Prelude.{◌≡◌, ◌<◌, ℕ, ◌^◌, ◌++◌, Some, true, IfSome, length, decimal, replicate};
ghost use Rattle.offer_codes.specs.Offers.{is_offer, offer_view};
ghost use Rattle.offer_codes.specs.Refunds.{is_refund};
ghost use Rattle.offer_codes.specs.Exchanges.{is_exchange, exchange_view};
ghost use Rattle.osdm_json.specs.Commands.{SpellsRow, SpellsOffer, SpellsRefund, SpellsExchange};
ghost use Rattle.osdm_json.specs.OrderBodies.{run_from};

use itoa::Buffer;
use offer_codes::{ExchangeCode, OfferCode, RefundCode, read_exchange, read_offer, read_refund};
use rail_ids::{RowNo, RunNo, read_booking_id};
use std::str;
use train_runs::Runs;

/// The booking of its id, by its row and generation.
pub(crate) fn row_of(text: &[u8]) -> Option<RowNo>
    ensures { SpellsRow text.now result }
{
    read_booking_id(text)
}

/// The offer of its id.
pub(crate) fn offer_of(text: &[u8]) -> Option<OfferCode>
    ensures spelled { SpellsOffer text.now result }
    ensures ranges { IfSome result (λ c. is_offer (offer_view c) ≡ true) }
{
    read_offer(text)
}

/// The refund offer of its id.
pub(crate) fn refund_of(text: &[u8]) -> Option<RefundCode>
    ensures spelled { SpellsRefund text.now result }
    ensures ranges { IfSome result (λ c. is_refund c ≡ true) }
{
    read_refund(text)
}

/// The exchange offer of its id.
pub(crate) fn exchange_of(text: &[u8]) -> Option<ExchangeCode>
    ensures spelled { SpellsExchange text.now result }
    ensures ranges { IfSome result (λ c. is_exchange (exchange_view c) ≡ true) }
{
    read_exchange(text)
}

/// The run whose number the text is, in digits without a leading zero.
pub(crate) fn run_of(runs: &Runs, text: &[u8]) -> Option<RunNo>
    ensures value { result ≡ run_from 0 text.now runs.now.runs }
    ensures known { IfSome result (λ run. run.0 < length runs.now.runs) }
{
    let count = u64::from(runs.count());
    let number = value_of_digits(text)?;
    if number < count && Buffer::new().format(number).as_bytes() == text {
        Some(RunNo(number as u32))
    } else {
        None
    }
}

// The number of digits. A text that is no number may give one too.
fn value_of_digits(digits: &[u8]) -> Option<u64>
    ensures { (k n : ℕ) → n < 2 ^ 64 → digits.now ≡ replicate k 48 ++ decimal n → result ≡ Some n }
{
    match str::from_utf8(digits) {
        Ok(text) => match text.parse::<u64>() {
            Ok(number) => Some(number),
            Err(_) => None,
        },
        Err(_) => None,
    }
}
