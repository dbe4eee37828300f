//! Showing, confirming, collecting and releasing a booking.
ghost use Rattle.std.specs.Prelude.{◌≡◌, Ok, IfOk, IfSome};
ghost use Rattle.claim_rule.specs.Turns.{IsPresentIn};
ghost use Rattle.history_model.specs.declared.phase.Phase.TheVariants as phase;
ghost use Rattle.history_model.specs.declared.phase.EndKind.TheVariants as kind;
ghost use Rattle.booking_rows.specs.declared.turns.Aim.TheVariants as aim;
ghost use Rattle.booking_rows.specs.Aims.{end_of};
ghost use Rattle.refund_core.specs.Releasing.{IsReleased};
ghost use Rattle.osdm_texts.specs.Answers.{booking, told_of, Tells};
ghost use Rattle.osdm_texts.specs.Bookings.{HasIds};
ghost use Rattle.shop.specs.Homes.{IsAtHome, StaysHome};
ghost use Rattle.booking_service.specs.Deciding.{OnBooking, Answered, shows, ConfirmsBooking, FulfilsFound, ReleasesBooking, in_phase as in_phase_of, at_end};

use booking_rows::{EndView, RowView};
use claim_rule::Desk;
use confirm_core::{Confirmed, Fulfilment, confirm, fulfil};
use history_model::phase::{EndKind, Phase};
use osdm_texts::{Problem, Reply, Success, Written, write_reply};
use rail_ids::{RetailerNo, RowNo};
use rail_time::Moment;
use refund_core::{Released, find_booking, release};
use shop::{Asker, Shop};

/// The text that shows a booking, or `None` where there is no memory for it.
///
/// The booking has an id, and so has its successor, where it has one.
pub fn booking_answer(shop: &Shop<'_>, row: RowNo, view: RowView) -> Option<Written>
    requires ids { HasIds row view }
    ensures told { IfSome result (Tells shop.now.cat.now (booking row view)) }
{
    write_reply(
        shop.alloc,
        shop.cat,
        Success::Done,
        &Reply::Booking { row, view },
    )
}

fn in_phase(phase: Phase, view: RowView) -> RowView
    ensures view { result ≡ in_phase_of phase view }
{
    RowView {
        phase,
        ended: None,
        ..view
    }
}

/// Shows a booking (OSDM's look at a booking).
pub fn show_booking(
    shop: &Shop<'_>,
    desk: &mut Desk,
    retailer: RetailerNo,
    row: RowNo,
) -> Result<Written, Problem>
    requires home { IsAtHome shop.now.books.now desk.old }
    ensures home { StaysHome shop.now.books.now desk.old desk.new }
    ensures answer { Answered shop.now.cat.now
        (OnBooking shop.now.books.now.layout.rows row retailer.0 (shows row)) desk.old desk.new (told_of result) }
{
    let Some(view) = find_booking(shop.books, desk, row, retailer) else {
        return Err(Problem::UnknownBooking);
    };
    booking_answer(shop, row, view).ok_or(Problem::NoMemory)
}

/// Confirms a booking up to its limit (OSDM's confirmation).
pub fn confirm_booking(
    shop: &Shop<'_>,
    desk: &mut Desk,
    asker: Asker,
    row: RowNo,
) -> Result<Written, Problem>
    requires home { IsAtHome shop.now.books.now desk.old }
    ensures confirmed { IfOk result (λ _. IsPresentIn desk.new row phase.Confirmed) }
    ensures home { StaysHome shop.now.books.now desk.old desk.new }
    ensures answer { Answered shop.now.cat.now
        (ConfirmsBooking shop.now.books.now.layout.rows row asker.retailer.0 asker.moment)
        desk.old desk.new (told_of result) }
{
    let Some(view) = find_booking(shop.books, desk, row, asker.retailer) else {
        return Err(Problem::UnknownBooking);
    };
    let Some(ready) = booking_answer(shop, row, in_phase(Phase::Confirmed, view)) else {
        return Err(Problem::NoMemory);
    };
    let now = asker.moment;
    match confirm(shop.books, desk, row, asker.retailer, now) {
        Confirmed::Done => Ok(ready),
        Confirmed::Unknown => Err(Problem::UnknownBooking),
        Confirmed::TooLate { limit } => Err(Problem::TooLate { limit, now }),
        Confirmed::WrongState { shown } => Err(Problem::WrongState { shown }),
    }
}

/// Collects the ticket of a confirmed booking (OSDM's fulfilment).
pub fn fulfil_booking(
    shop: &Shop<'_>,
    desk: &mut Desk,
    retailer: RetailerNo,
    row: RowNo,
) -> Result<Written, Problem>
    requires home { IsAtHome shop.now.books.now desk.old }
    ensures fulfilled { IfOk result (λ _. IsPresentIn desk.new row phase.Fulfilled) }
    ensures home { StaysHome shop.now.books.now desk.old desk.new }
    ensures answer { Answered shop.now.cat.now (OnBooking shop.now.books.now.layout.rows row retailer.0
        (FulfilsFound shop.now.books.now.layout.rows row retailer.0)) desk.old desk.new (told_of result) }
{
    let Some(view) = find_booking(shop.books, desk, row, retailer) else {
        return Err(Problem::UnknownBooking);
    };
    let Some(ready) = booking_answer(shop, row, in_phase(Phase::Fulfilled, view)) else {
        return Err(Problem::NoMemory);
    };
    match fulfil(shop.books, desk, row, retailer) {
        Fulfilment::Done => Ok(ready),
        Fulfilment::Unknown => Err(Problem::UnknownBooking),
        Fulfilment::WrongState { shown } => Err(Problem::WrongState { shown }),
    }
}

fn released(now: Moment, view: RowView) -> RowView
    ensures view { result ≡ at_end kind.Release (end_of (aim.Release now)) view }
{
    RowView {
        phase: Phase::Ended(EndKind::Release),
        ended: Some(EndView {
            amount: 0,
            moment: now,
            successor: None,
        }),
        ..view
    }
}

/// Releases a prebooked booking (OSDM's release): all its places are given back before the answer.
pub fn release_booking(
    shop: &Shop<'_>,
    desk: &mut Desk,
    asker: Asker,
    row: RowNo,
) -> Result<Written, Problem>
    requires home { IsAtHome shop.now.books.now desk.old }
    ensures released { IfOk result (λ _. IsReleased desk.new row asker.moment) }
    ensures home { StaysHome shop.now.books.now desk.old desk.new }
    ensures answer { Answered shop.now.cat.now
        (ReleasesBooking shop.now.books.now.layout.rows row asker.retailer.0 asker.moment)
        desk.old desk.new (told_of result) }
{
    let Some(view) = find_booking(shop.books, desk, row, asker.retailer) else {
        return Err(Problem::UnknownBooking);
    };
    let Some(ready) = booking_answer(shop, row, released(asker.moment, view)) else {
        return Err(Problem::NoMemory);
    };
    match release(shop.books, desk, row, asker.retailer, asker.moment) {
        Released::Done => Ok(ready),
        Released::Unknown => Err(Problem::UnknownBooking),
        Released::WrongState { shown } => Err(Problem::WrongState { shown }),
    }
}
