//! Which steps of a desk are allowed in a list of bookings.

ghost use Rattle.std.specs.Prelude.{◌≡◌, ◌<◌, ◌↔◌, IsTrue, length};
ghost use Rattle.std.specs.List.{Any};
ghost use Rattle.history_model.specs.Allowed.{OnRow, IsMadeBy, MayGive, MayNote, MayClose, MaySealAs, MayStart, IsSealable, IsExchangedFor, IsSuccessor, IsAmountOf, TurnsWith};
ghost use Rattle.history_model.specs.Allows.{IsSealableAs, TurnsFrom};
ghost use Rattle.history_model.specs.Booking.{limit_of, most_items, successor_word};

use crate::booking::{BookingRow, End, GREATEST_AMOUNT, LIMIT_WORD, MOST_ITEMS};
use crate::phase::{EndKind, Phase};
use crate::shown::booking_of;
use rail_ids::LAST_GENERATION;

/// The greatest amount paid back, in minor units.
const GREATEST_REFUND: i64 = GREATEST_AMOUNT as i64;
/// The least difference of an exchange.
const LEAST_DIFFERENCE: i64 = -GREATEST_REFUND;
/// The greatest difference of an exchange: the greatest total and the greatest fee.
const GREATEST_DIFFERENCE: i64 = 100_009_999_999;

/// Whether the row's booking is the desk's, in the making, and has room for an item.
pub(crate) fn has_room(bookings: &[BookingRow], desk: u32, row: u32) -> bool
    ensures { IsTrue result ↔ OnRow bookings.now row (λ b. IsMadeBy desk b × (length b.items < most_items)) }
{
    match booking_of(bookings, row) {
        Some(b) => b.is_made_by(desk) && b.items.len() < MOST_ITEMS,
        None => false,
    }
}

/// Whether the desk may give the item of the row's booking back.
pub(crate) fn may_give(bookings: &[BookingRow], desk: u32, row: u32, item: u8) -> bool
    ensures { IsTrue result ↔ OnRow bookings.now row (MayGive desk item) }
{
    match booking_of(bookings, row) {
        Some(b) => b.may_give(desk, item),
        None => false,
    }
}

/// Whether the desk may set the word of the row's booking.
pub(crate) fn may_note(bookings: &[BookingRow], desk: u32, row: u32, word: u8) -> bool
    ensures { IsTrue result ↔ OnRow bookings.now row (MayNote desk word) }
{
    match booking_of(bookings, row) {
        Some(b) => b.may_note(desk, word),
        None => false,
    }
}

/// Whether the desk may close the row's booking.
pub(crate) fn may_close(bookings: &[BookingRow], desk: u32, row: u32) -> bool
    ensures { IsTrue result ↔ OnRow bookings.now row (MayClose desk) }
{
    match booking_of(bookings, row) {
        Some(b) => b.may_close(desk),
        None => false,
    }
}

/// Whether this generation of the row may be started.
pub(crate) fn may_start(bookings: &[BookingRow], row: u32, generation: u32) -> bool
    ensures { IsTrue result ↔ MayStart bookings.now row generation }
{
    match booking_of(bookings, row) {
        Some(b) => {
            if generation > LAST_GENERATION || !b.is_ended() {
                return false;
            }
            u64::from(generation) == u64::from(b.generation) + 1
        }
        None => generation == 0,
    }
}

/// Whether the word is that of a booking in the making by the desk.
fn is_successor(bookings: &[BookingRow], desk: u32, word: u64) -> bool
    ensures { IsTrue result ↔ IsSuccessor bookings.now desk word }
{
    bookings
        .iter()
        .any(|b| b.is_made_by(desk) && b.is_successor(word))
}

/// Whether the booking is the successor of one that the desk turned to an exchange.
fn is_exchanged(bookings: &[BookingRow], desk: u32, b: &BookingRow) -> bool
    ensures { IsTrue result ↔ Any (IsExchangedFor desk (successor_word b.now.row b.now.generation)) bookings.now }
{
    bookings.iter().any(|old| old.is_exchanged_for(desk, b))
}

/// Whether the booking of the desk may be sealed in the phase.
fn may_seal_as(bookings: &[BookingRow], desk: u32, b: &BookingRow, phase: Phase) -> bool
    ensures { IsTrue result ↔ MaySealAs bookings.now desk b.now phase }
{
    match phase {
        Phase::Prebooked => true,
        Phase::Confirmed => is_exchanged(bookings, desk, b),
        _ => false,
    }
}

/// Whether the row's booking is the desk's in the making, with all that a seal asks of it, and may be sealed in the
/// phase.
pub(crate) fn may_seal(bookings: &[BookingRow], desk: u32, row: u32, phase: Phase) -> bool
    ensures { IsTrue result ↔ OnRow bookings.now row (IsSealableAs bookings.now desk phase) }
{
    match booking_of(bookings, row) {
        Some(b) => b.is_made_by(desk) && b.is_sealable() && may_seal_as(bookings, desk, b, phase),
        None => false,
    }
}

/// Whether an end of this kind may have the amount.
fn is_amount_of(kind: EndKind, amount: i64) -> bool
    ensures { IsTrue result ↔ IsAmountOf kind amount }
{
    match kind {
        EndKind::Release => amount == 0,
        EndKind::Expire => amount == 0,
        EndKind::Refund => 0 <= amount && amount <= GREATEST_REFUND,
        EndKind::Exchange => LEAST_DIFFERENCE <= amount && amount <= GREATEST_DIFFERENCE,
    }
}

/// Whether a turn of the booking to the phase may have this end.
fn turns_with(bookings: &[BookingRow], desk: u32, limit: u64, to: Phase, end: End) -> bool
    ensures { IsTrue result ↔ TurnsWith bookings.now desk limit to end }
{
    match to {
        Phase::Confirmed => end.moment <= limit && end.amount == 0 && end.successor == 0,
        Phase::Fulfilled => end.moment == 0 && end.amount == 0 && end.successor == 0,
        Phase::Ending(EndKind::Release) => is_amount_of(EndKind::Release, end.amount)
            && end.successor == 0,
        Phase::Ending(EndKind::Expire) => limit < end.moment
            && is_amount_of(EndKind::Expire, end.amount)
            && end.successor == 0,
        Phase::Ending(EndKind::Refund) => is_amount_of(EndKind::Refund, end.amount)
            && end.successor == 0,
        Phase::Ending(EndKind::Exchange) => {
            if !is_amount_of(EndKind::Exchange, end.amount) {
                return false;
            }
            is_successor(bookings, desk, end.successor)
        }
        _ => false,
    }
}

/// Whether the row's booking is in the phase, and a turn to the other phase may have this end.
pub(crate) fn row_turns(
    bookings: &[BookingRow],
    desk: u32,
    row: u32,
    from: Phase,
    to: Phase,
    end: End,
) -> bool
    ensures { IsTrue result ↔ OnRow bookings.now row (TurnsFrom bookings.now desk from to end) }
{
    match booking_of(bookings, row) {
        Some(b) => {
            if b.phase != from {
                return false;
            }
            turns_with(bookings, desk, b.words[LIMIT_WORD as usize], to, end)
        }
        None => false,
    }
}
