//! Checking the quote of an exchange, before places are held for it.
ghost use Rattle.std.specs.Prelude.{◌≡◌, ◌+◌, true};
ghost use Rattle.history_model.specs.Booking.{most_items};
ghost use Rattle.claim_rule.specs.Desks.{IsOf, AddsAtMost};
ghost use Rattle.claim_rule.specs.Calls.{AddsStepsBy};
ghost use Rattle.claim_rule.specs.Out.{KeepsHolds, KeepsEndings};
ghost use Rattle.offer_codes.specs.Offers.{is_offer, offer_view};
ghost use Rattle.offer_codes.specs.Exchanges.{exchange_view};
ghost use Rattle.booking_rows.specs.Views.{other_looks};
ghost use Rattle.exchange_core.specs.Ready.{IsReadyFor};
ghost use Rattle.exchange_core.specs.Exchanges.{Readies, IfFine};

use crate::copies::copy_of_exchange;
use crate::differences::difference_at;
use catalogue_contents::Catalogue;
use claim_rule::{Books, Desk};
use history_model::phase::Phase;
use offer_codes::ExchangeCode;
use rail_ids::RetailerNo;
use rail_time::Moment;
use refund_core::{find_booking, is_named, is_stale};
use std::marker::Model;

/// A quote that was checked, with the retailer for whom and the moment at which it was. Contracts see it as a
/// `ReadyView`.
#[derive(Drop)]
pub struct ExchangeReady {
    pub(crate) code: ExchangeCode,
    pub(crate) retailer: RetailerNo,
    pub(crate) moment: Moment,
}

impl Model for ExchangeReady {
    ghost use Rattle.offer_codes.specs.Exchanges.{exchange_view};
    ghost use Rattle.exchange_core.specs.Ready.{ReadyView};

    ghost Value = { ReadyView };

    ghost view = { λ r. record { code = exchange_view r.code; retailer = r.retailer.0; moment = r.moment } };
}

/// What came of checking the quote of an exchange.
#[derive(Drop)]
pub enum Readied {
    /// The quote is right, and the booking is in the phase that it names.
    Fine(ExchangeReady),
    /// The row is past the last, or its look shows the booking free, in the making, or another retailer's; or its last
    /// look shows it free.
    Unknown,
    /// The look shows another phase than the code names.
    WrongState { shown: Phase },
    /// The quote was made after now, or more than 900 seconds before.
    QuoteStale { made: Moment, now: Moment },
    /// The code's difference isn't the one of when the quote was made, in the phase that the code names.
    QuoteWrong,
}

/// Checks the quote of an exchange of this retailer's booking. Refusals are tried in this order: `QuoteStale`,
/// `Unknown`, `QuoteWrong`, `WrongState`. The code's offer is in the ranges of its spelling. At most 57 entries are
/// added.
pub fn ready_exchange(
    cat: &Catalogue,
    books: &Books,
    desk: &mut Desk,
    retailer: RetailerNo,
    code: &ExchangeCode,
    now: Moment,
) -> Readied
    requires own { IsOf books.now desk.old }
    requires offer { is_offer (offer_view code.now.offer) ≡ true }
    ensures own { IsOf books.now desk.new }
    ensures entries { AddsStepsBy
        (Readies cat.now books.now.layout.rows retailer.0 (exchange_view code.now) now result) desk.old desk.new }
    ensures ready { IfFine result (IsReadyFor desk.new) }
    ensures holds { KeepsHolds desk.old desk.new }
    ensures endings { KeepsEndings desk.old desk.new }
    ensures bound { AddsAtMost (most_items + other_looks) desk.old desk.new }
{
    let made = code.made;
    if is_stale(made, now) {
        return Readied::QuoteStale { made, now };
    }
    let Some(view) = find_booking(books, desk, code.row, retailer) else {
        return Readied::Unknown;
    };
    if difference_at(cat, &view, made, code.fulfilled, &code.offer) != code.difference {
        return Readied::QuoteWrong;
    }
    if !is_named(view.phase, code.fulfilled) {
        return Readied::WrongState { shown: view.phase };
    }
    Readied::Fine(ExchangeReady {
        code: copy_of_exchange(code),
        retailer,
        moment: now,
    })
}
