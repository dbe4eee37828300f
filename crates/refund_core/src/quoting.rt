//! Quoting a refund (OSDM's refund offer).
ghost use Rattle.std.specs.Prelude.{◌≡◌, ◌+◌, true};
ghost use Rattle.history_model.specs.Booking.{most_items};
ghost use Rattle.claim_rule.specs.Desks.{IsOf, AddsAtMost};
ghost use Rattle.claim_rule.specs.Calls.{AddsStepsBy};
ghost use Rattle.claim_rule.specs.Out.{KeepsHolds, KeepsEndings};
ghost use Rattle.offer_codes.specs.Refunds.{is_refund};
ghost use Rattle.booking_rows.specs.Views.{other_looks};
ghost use Rattle.refund_core.specs.Refunding.{QuotesRefund, IfQuoted};

use crate::quotes::{find_booking, is_collected, refund_at};
use catalogue_contents::Catalogue;
use claim_rule::{Books, Desk};
use history_model::phase::Phase;
use offer_codes::RefundCode;
use rail_ids::{RetailerNo, RowNo};
use rail_time::Moment;

/// What came of quoting a refund.
#[derive(Clone, Copy, PartialEq, Eq)]
pub enum Quoted {
    /// The quote.
    Done(RefundCode),
    /// The row is past the last, or its look shows the booking free, in the making, or another retailer's; or its last
    /// look shows it free.
    Unknown,
    /// The look shows another phase than confirmed and fulfilled.
    WrongState { shown: Phase },
}

/// Quotes a refund of this retailer's confirmed or fulfilled booking: what it is worth now, in the phase that its look
/// shows. The quote is in the ranges of its spelling. At most 57 entries are added.
pub fn quote_refund(
    cat: &Catalogue,
    books: &Books,
    desk: &mut Desk,
    row: RowNo,
    retailer: RetailerNo,
    now: Moment,
) -> Quoted
    requires own { IsOf books.now desk.old }
    ensures own { IsOf books.now desk.new }
    ensures entries { AddsStepsBy (QuotesRefund cat.now books.now.layout.rows row retailer.0 now result) desk.old
        desk.new }
    ensures range { IfQuoted result (λ code. is_refund code ≡ true) }
    ensures holds { KeepsHolds desk.old desk.new }
    ensures endings { KeepsEndings desk.old desk.new }
    ensures bound { AddsAtMost (most_items + other_looks) desk.old desk.new }
{
    let Some(view) = find_booking(books, desk, row, retailer) else {
        return Quoted::Unknown;
    };
    let Some(fulfilled) = is_collected(view.phase) else {
        return Quoted::WrongState { shown: view.phase };
    };
    let amount = refund_at(cat, &view, now, fulfilled);
    Quoted::Done(RefundCode {
        row,
        made: now,
        fulfilled,
        amount,
    })
}
