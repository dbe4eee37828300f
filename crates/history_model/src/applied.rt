//! What an allowed step does to a list of bookings.

ghost use Rattle.std.specs.Prelude.{◌≡◌, true, OnOk, OnErr, position};
ghost use Rattle.history_model.specs.Booking.{change, stands_in};
ghost use Rattle.history_model.specs.Apply.{item_taken, given, noted, in_phase, turned, closed, apply_step, is_growing};

use crate::booking::{BookingRow, End};
use crate::entry::Step;
use crate::phase::Phase;
use crate::shown::{latest_of, words_of_row};
use leg_masks::Span;
use std::alloc::{AllocError, Global};

/// Where the present booking of a row stands.
fn place_of(bookings: &[BookingRow], row: u32) -> Option<usize>
    ensures { result ≡ position (stands_in bookings.now row) bookings.now }
{
    let latest = latest_of(bookings, row);
    bookings
        .iter()
        .position(|b| b.row == row && u64::from(b.generation) == latest)
}

/// Adds an item to the row's booking.
#[tactic(auto, using(crate::proofs::Places::write_is, crate::proofs::Places::none_is))]
fn take_in(
    bookings: &mut Vec<BookingRow>,
    row: u32,
    place: u32,
    span: Span,
) -> Result<(), AllocError>
    ensures ok { OnOk result (bookings.new.items ≡ change bookings.old.items row (item_taken place span)) }
    ensures err { OnErr result (bookings.new.items ≡ bookings.old.items) }
{
    if let Some(at) = place_of(bookings, row) {
        bookings[at].take(place, span)?;
    }
    Ok(())
}

/// Gives an item of the row's booking back.
#[tactic(auto, using(crate::proofs::Places::write_is, crate::proofs::Places::none_is))]
fn give_in(bookings: &mut [BookingRow], row: u32, item: u8)
    ensures { bookings.new ≡ change bookings.old row (given item) }
{
    if let Some(at) = place_of(bookings, row) {
        bookings[at].give(item);
    }
}

/// Sets a word of the row's booking.
#[tactic(auto, using(crate::proofs::Places::write_is, crate::proofs::Places::none_is))]
fn note_in(bookings: &mut [BookingRow], row: u32, word: u8, value: u64)
    ensures { bookings.new ≡ change bookings.old row (noted word value) }
{
    if let Some(at) = place_of(bookings, row) {
        bookings[at].note(word, value);
    }
}

/// Seals the row's booking.
#[tactic(auto, using(crate::proofs::Places::write_is, crate::proofs::Places::none_is))]
fn seal_in(bookings: &mut [BookingRow], row: u32, phase: Phase)
    ensures { bookings.new ≡ change bookings.old row (in_phase phase) }
{
    if let Some(at) = place_of(bookings, row) {
        bookings[at].set_phase(phase);
    }
}

/// Turns the row's booking.
#[tactic(auto, using(crate::proofs::Places::write_is, crate::proofs::Places::none_is))]
fn turn_in(bookings: &mut [BookingRow], row: u32, desk: u32, to: Phase, end: End)
    ensures { bookings.new ≡ change bookings.old row (turned desk to end) }
{
    if let Some(at) = place_of(bookings, row) {
        bookings[at].turn(desk, to, end);
    }
}

/// Closes the row's booking.
#[tactic(auto, using(crate::proofs::Places::write_is, crate::proofs::Places::none_is))]
fn close_in(bookings: &mut [BookingRow], row: u32)
    ensures { bookings.new ≡ change bookings.old row closed }
{
    if let Some(at) = place_of(bookings, row) {
        bookings[at].close();
    }
}

/// Does what an allowed step does.
pub(crate) fn carry_out(
    bookings: &mut Vec<BookingRow>,
    alloc: Global,
    desk: u32,
    step: Step,
) -> Result<(), AllocError>
    ensures ok { OnOk result (bookings.new.items ≡ apply_step bookings.old.items desk step) }
    ensures err { OnErr result (bookings.new.items ≡ bookings.old.items) }
    ensures memory { OnErr result (is_growing step ≡ true) }
{
    match step {
        Step::Start { row, generation } => {
            let words = words_of_row(bookings, row);
            bookings.push(BookingRow::start(alloc, row, generation, desk, words))?;
        }
        Step::Take { row, place, span } => take_in(bookings, row, place, span)?,
        Step::Give { row, item } => give_in(bookings, row, item),
        Step::Note { row, word, value } => note_in(bookings, row, word, value),
        Step::Seal { row, phase } => seal_in(bookings, row, phase),
        Step::Turn {
            row,
            from: _,
            to,
            moment,
            amount,
            successor,
        } => {
            turn_in(
                bookings,
                row,
                desk,
                to,
                End {
                    moment,
                    amount,
                    successor,
                },
            );
        }
        Step::Close { row } => close_in(bookings, row),
        Step::Look {
            place: _,
            half: _,
            shown: _,
        } => {}
        Step::SawRow {
            row: _,
            word: _,
            value: _,
        } => {}
        Step::LostTurn {
            row: _,
            wanted: _,
            shown: _,
        } => {}
        Step::Met => {}
    }
    Ok(())
}
