//! What quotes of refunds and of exchanges rest on.
ghost use Rattle.std.specs.Prelude.{◌≡◌, ◌≢◌, ◌<◌, ◌≤◌, ◌+◌, ◌↔◌, IsTrue, IfSome, IfNone};
ghost use Rattle.history_model.specs.declared.phase.Phase.TheVariants.{Confirmed, Fulfilled};
ghost use Rattle.history_model.specs.Booking.{most_items, most_rows, greatest_amount};
ghost use Rattle.rail_ids.specs.Spelling.{last_generation};
ghost use Rattle.claim_rule.specs.Desks.{IsOf, AddsAtMost};
ghost use Rattle.claim_rule.specs.Calls.{AddsStepsBy};
ghost use Rattle.claim_rule.specs.Out.{KeepsHolds, KeepsEndings};
ghost use Rattle.booking_rows.specs.SealedRows.{IsSealedRow};
ghost use Rattle.booking_rows.specs.Views.{other_looks};
ghost use Rattle.refund_core.specs.Quotes.{FindsBooking, phase_named as phase_named_of, is_stale as is_stale_at, refund_at as worth_at};

use booking_rows::{RowView, look_row};
use catalogue_contents::Catalogue;
use claim_rule::{Books, Desk};
use history_model::phase::Phase;
use offer_codes::VALID_SECONDS;
use rail_ids::{RetailerNo, RowNo};
use rail_time::Moment;
use tariff::refund_value;

/// This retailer's booking, as looks at its row show it. `None` exactly where the row is past the last, the first look
/// shows the booking free or in the making, the last one free, or its retailer is another.
pub fn find_booking(
    books: &Books,
    desk: &mut Desk,
    row: RowNo,
    retailer: RetailerNo,
) -> Option<RowView>
    requires own { IsOf books.now desk.old }
    ensures own { IsOf books.now desk.new }
    ensures entries { AddsStepsBy (FindsBooking books.now.layout.rows row retailer.0 result) desk.old desk.new }
    ensures sealed { IfSome result (λ _. IsSealedRow desk.new row) }
    ensures row { IfSome result (λ _. row.row < most_rows) }
    ensures generation { IfSome result (λ _. row.generation ≤ last_generation) }
    ensures total { IfSome result (λ v. v.total ≤ greatest_amount) }
    ensures holds { KeepsHolds desk.old desk.new }
    ensures endings { KeepsEndings desk.old desk.new }
    ensures bound { AddsAtMost (most_items + other_looks) desk.old desk.new }
{
    if row.row >= books.rows() {
        return None;
    }
    let view = look_row(books, desk, row)?;
    if view.retailer.0 != retailer.0 {
        return None;
    }
    Some(view)
}

/// The phase that a code names: fulfilled where it says that the ticket was collected, else confirmed.
pub fn phase_named(fulfilled: bool) -> Phase
    ensures phase { result ≡ phase_named_of fulfilled }
{
    if fulfilled {
        Phase::Fulfilled
    } else {
        Phase::Confirmed
    }
}

/// Whether this is the phase that a code names.
pub fn is_named(phase: Phase, fulfilled: bool) -> bool
    ensures named { IsTrue result ↔ (phase ≡ phase_named_of fulfilled) }
{
    phase == phase_named(fulfilled)
}

/// Whether the ticket of a booking in this phase is collected. `None` exactly where it is neither confirmed nor
/// fulfilled.
pub fn is_collected(phase: Phase) -> Option<bool>
    ensures named { IfSome result (λ fulfilled. phase ≡ phase_named_of fulfilled) }
    ensures neither { IfNone result ((phase ≢ Confirmed) × (phase ≢ Fulfilled)) }
{
    match phase {
        Phase::Confirmed => Some(false),
        Phase::Fulfilled => Some(true),
        _ => None,
    }
}

/// Whether a quote no longer stands: it was made after now, or more than 900 seconds before.
pub fn is_stale(made: Moment, now: Moment) -> bool
    ensures stale { result ≡ is_stale_at made now }
{
    let made = made.seconds();
    let now = now.seconds();
    made > now || now - made > u64::from(VALID_SECONDS)
}

/// What a booking is worth at a moment, in minor units, where its ticket is then collected or not: by its total, and by
/// the seconds from that moment to its first departure, 0 where that has passed.
pub fn refund_at(cat: &Catalogue, view: &RowView, made: Moment, fulfilled: bool) -> u64
    requires total { view.now.total ≤ greatest_amount }
    ensures value { result ≡ worth_at cat.now view.now made fulfilled }
    ensures most { result ≤ greatest_amount }
{
    let departure = cat.first_departure(view.items.as_slice());
    let seconds = departure.seconds().saturating_sub(made.seconds());
    refund_value(cat.terms(), view.total, seconds, fulfilled)
}
