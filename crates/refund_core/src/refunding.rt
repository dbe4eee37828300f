//! Accepting a refund that was quoted.
ghost use Rattle.std.specs.Prelude.{◌+◌, ◌*◌};
ghost use Rattle.history_model.specs.Booking.{most_items};
ghost use Rattle.claim_rule.specs.Desks.{IsOf, AddsAtMost};
ghost use Rattle.claim_rule.specs.Calls.{AddsStepsBy};
ghost use Rattle.claim_rule.specs.Out.{EndsNone, KeepsHolds};
ghost use Rattle.refund_core.specs.Refunding.{AcceptsRefund, IfRefunded, IsRefunded};

use crate::quotes::{find_booking, is_named, is_stale, phase_named, refund_at};
use booking_rows::Aim;
use catalogue_contents::Catalogue;
use claim_rule::{Books, Desk};
use confirm_core::end_row;
use history_model::phase::Phase;
use offer_codes::RefundCode;
use rail_ids::RetailerNo;
use rail_time::Moment;

/// What came of accepting a refund.
#[derive(Clone, Copy, PartialEq, Eq)]
pub enum Refunded {
    /// The booking is refunded by this call, with the code's amount in minor units, and all its items are given back.
    Done { amount: u64 },
    /// The row is past the last, or its look shows the booking free, in the making, or another retailer's; or the last
    /// look, or the lost turn of this call, shows it free.
    Unknown,
    /// The look, or the lost turn of this call, shows another phase than the code names, and no look shows it free.
    WrongState { shown: Phase },
    /// The quote was made after now, or more than 900 seconds before.
    QuoteStale { made: Moment, now: Moment },
    /// The code's amount isn't what the booking was worth when the quote was made, in the phase that the code names.
    QuoteWrong,
}

/// Refunds this retailer's booking by a quote, in just the phase that the quote names. Refusals are tried in this
/// order: `QuoteStale`, `Unknown`, `QuoteWrong`, `WrongState`. The desk has no ending out. At most 159 entries are
/// added.
pub fn accept_refund(
    cat: &Catalogue,
    books: &Books,
    desk: &mut Desk,
    retailer: RetailerNo,
    code: &RefundCode,
    now: Moment,
) -> Refunded
    requires own { IsOf books.now desk.old }
    requires none { EndsNone desk.old }
    ensures own { IsOf books.now desk.new }
    ensures entries { AddsStepsBy
        (AcceptsRefund cat.now books.now.layout.rows retailer.0 code.now now result) desk.old desk.new }
    ensures refunded { IfRefunded result (IsRefunded desk.new code.now.row now) }
    ensures none { EndsNone desk.new }
    ensures holds { KeepsHolds desk.old desk.new }
    ensures bound { AddsAtMost (3 * most_items + 15) desk.old desk.new }
{
    let made = code.made;
    if is_stale(made, now) {
        return Refunded::QuoteStale { made, now };
    }
    let Some(view) = find_booking(books, desk, code.row, retailer) else {
        return Refunded::Unknown;
    };
    if refund_at(cat, &view, made, code.fulfilled) != code.amount {
        return Refunded::QuoteWrong;
    }
    if !is_named(view.phase, code.fulfilled) {
        return Refunded::WrongState { shown: view.phase };
    }
    let from = phase_named(code.fulfilled);
    let amount = code.amount;
    let Some(found) = end_row(books, desk, code.row, from, Aim::Refund { now, amount }) else {
        return Refunded::Done { amount };
    };
    if let Phase::Free = found {
        return Refunded::Unknown;
    }
    Refunded::WrongState { shown: found }
}
