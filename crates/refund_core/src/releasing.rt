//! Releasing a booking (OSDM's release of a prebooked offer).
ghost use Rattle.std.specs.Prelude.{◌+◌, ◌*◌};
ghost use Rattle.history_model.specs.Booking.{most_items};
ghost use Rattle.claim_rule.specs.Desks.{IsOf, AddsAtMost};
ghost use Rattle.claim_rule.specs.Calls.{AddsStepsBy};
ghost use Rattle.claim_rule.specs.Out.{EndsNone, KeepsHolds};
ghost use Rattle.refund_core.specs.Releasing.{Releases, IfReleased, IsReleased};

use booking_rows::Aim;
use claim_rule::{Books, Desk};
use confirm_core::{end_row, find_owned};
use history_model::phase::Phase;
use rail_ids::{RetailerNo, RowNo};
use rail_time::Moment;

/// What came of releasing.
#[derive(Clone, Copy, PartialEq, Eq)]
pub enum Released {
    /// The booking is released by this call, and all its items are given back.
    Done,
    /// The row is past the last, or its look shows the booking free, in the making, or another retailer's; or the
    /// second look, or the lost turn of this call, shows it free.
    Unknown,
    /// The look, or the lost turn of this call, shows another phase than prebooked, and no look shows it free.
    WrongState { shown: Phase },
}

/// Releases a prebooked booking of this retailer, also after its limit. The desk has no ending out. At most 105 entries
/// are added.
pub fn release(
    books: &Books,
    desk: &mut Desk,
    row: RowNo,
    retailer: RetailerNo,
    now: Moment,
) -> Released
    requires own { IsOf books.now desk.old }
    requires none { EndsNone desk.old }
    ensures own { IsOf books.now desk.new }
    ensures entries { AddsStepsBy (Releases books.now.layout.rows row retailer.0 now result) desk.old desk.new }
    ensures released { IfReleased result (IsReleased desk.new row now) }
    ensures none { EndsNone desk.new }
    ensures holds { KeepsHolds desk.old desk.new }
    ensures bound { AddsAtMost (2 * most_items + 9) desk.old desk.new }
{
    let Some(shown) = find_owned(books, desk, row, retailer) else {
        return Released::Unknown;
    };
    let Phase::Prebooked = shown else {
        return Released::WrongState { shown };
    };
    let Some(found) = end_row(books, desk, row, Phase::Prebooked, Aim::Release { now }) else {
        return Released::Done;
    };
    if let Phase::Free = found {
        return Released::Unknown;
    }
    Released::WrongState { shown: found }
}
