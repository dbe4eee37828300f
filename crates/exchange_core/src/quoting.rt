//! Quoting an exchange (OSDM's exchange offer).
ghost use Rattle.std.specs.Prelude.{◌≡◌, ◌+◌, true};
ghost use Rattle.history_model.specs.Booking.{most_items};
ghost use Rattle.claim_rule.specs.Desks.{IsOf, AddsAtMost};
ghost use Rattle.claim_rule.specs.Calls.{AddsStepsBy};
ghost use Rattle.claim_rule.specs.Out.{KeepsHolds, KeepsEndings};
ghost use Rattle.offer_codes.specs.Offers.{is_offer, offer_view};
ghost use Rattle.offer_codes.specs.Exchanges.{is_exchange, exchange_view};
ghost use Rattle.booking_rows.specs.Views.{other_looks};
ghost use Rattle.exchange_core.specs.Exchanges.{QuotesExchange, IfQuoted};

use crate::copies::copy_of_offer;
use crate::differences::difference_at;
use catalogue_contents::Catalogue;
use claim_rule::{Books, Desk};
use history_model::phase::Phase;
use offer_codes::{ExchangeCode, OfferCode};
use rail_ids::{RetailerNo, RowNo};
use rail_time::Moment;
use refund_core::{find_booking, is_collected};

/// What came of quoting an exchange.
#[derive(Drop)]
pub enum QuotedExchange {
    /// The quote.
    Done(ExchangeCode),
    /// The row is past the last, or its look shows the booking free, in the making, or another retailer's; or its last
    /// look shows it free.
    Unknown,
    /// The look shows another phase than confirmed and fulfilled.
    WrongState { shown: Phase },
}

/// Quotes an exchange of this retailer's confirmed or fulfilled booking for an offer: what the offer, with the exchange
/// fee, costs more than the booking is worth now, in the phase that its look shows. The offer is in the ranges of its
/// spelling, and so is the quote. At most 57 entries are added.
pub fn quote_exchange(
    cat: &Catalogue,
    books: &Books,
    desk: &mut Desk,
    row: RowNo,
    retailer: RetailerNo,
    offer: &OfferCode,
    now: Moment,
) -> QuotedExchange
    requires own { IsOf books.now desk.old }
    requires offer { is_offer (offer_view offer.now) ≡ true }
    ensures own { IsOf books.now desk.new }
    ensures entries { AddsStepsBy (QuotesExchange
        cat.now books.now.layout.rows row retailer.0 (offer_view offer.now) now result) desk.old desk.new }
    ensures range { IfQuoted result (λ code. is_exchange (exchange_view code) ≡ true) }
    ensures holds { KeepsHolds desk.old desk.new }
    ensures endings { KeepsEndings desk.old desk.new }
    ensures bound { AddsAtMost (most_items + other_looks) desk.old desk.new }
{
    let Some(view) = find_booking(books, desk, row, retailer) else {
        return QuotedExchange::Unknown;
    };
    let Some(fulfilled) = is_collected(view.phase) else {
        return QuotedExchange::WrongState { shown: view.phase };
    };
    let difference = difference_at(cat, &view, now, fulfilled, offer);
    QuotedExchange::Done(ExchangeCode {
        row,
        made: now,
        fulfilled,
        difference,
        offer: copy_of_offer(offer),
    })
}
