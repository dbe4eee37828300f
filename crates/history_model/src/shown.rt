//! What a list of bookings shows: the booking of a row, the legs that are taken, and the words.

ghost use Rattle.std.specs.Prelude.{◌≡◌, ◌<◌, ◌-◌, ◌↔◌, All, IsTrue};
ghost use Rattle.std.specs.List.{list_any};
ghost use Rattle.std.specs.Option.{option_copied};
ghost use Rattle.leg_masks.specs.Interval.{halves};
ghost use Rattle.history_model.specs.Allowed.{Blocks, IsOpen};
ghost use Rattle.history_model.specs.Booking.{present, next_generation, row_words, occupies, is_occupied};
ghost use Rattle.history_model.specs.Words.{place_word, row_word};
ghost use Rattle.history_model.specs.Apply.{words_of_row as spec_words_of_row};

use crate::booking::{BookingRow, ROW_WORDS, STANDING_WORD};
use crate::phase::row_word_of;
use leg_masks::{Span, WORD_LEGS};

/// The highest generation of a row, and 0 where the row has none.
pub(crate) fn latest_of(bookings: &[BookingRow], row: u32) -> u64
    ensures { result ≡ next_generation bookings.now row - 1 }
{
    let mut next = 0;
    for b in bookings {
        if b.row == row {
            next = next.max(u64::from(b.generation) + 1);
        }
    }
    next.saturating_sub(1)
}

/// The present booking of a row, where one stands in it.
pub(crate) fn booking_of(bookings: &[BookingRow], row: u32) -> Option<&BookingRow>
    ensures { option_copied result ≡ present bookings.now row }
{
    let latest = latest_of(bookings, row);
    bookings
        .iter()
        .find(|b| b.row == row && u64::from(b.generation) == latest)
}

/// The words of a row's present booking, and 0 where it has none.
pub(crate) fn words_of_row(bookings: &[BookingRow], row: u32) -> [u64; ROW_WORDS]
    ensures { result ≡ spec_words_of_row bookings.now row }
{
    match booking_of(bookings, row) {
        Some(b) => b.words,
        None => [0; ROW_WORDS],
    }
}

/// Whether the span is free at the place, by bookings.
fn are_clear(bookings: &[BookingRow], place: u32, span: Span) -> bool
    ensures { IsTrue result ↔ All (λ b. All (λ i. ¬ Blocks place span i) b.items) bookings.now }
{
    bookings.iter().all(|b| b.is_clear(place, span))
}

/// Whether the span is free at the place.
pub(crate) fn is_open(bookings: &[BookingRow], place: u32, span: Span) -> bool
    ensures { IsTrue result ↔ IsOpen bookings.now place span }
{
    are_clear(bookings, place, span)
}

/// Whether a leg of a place is taken, by bookings.
fn any_occupies(bookings: &[BookingRow], place: u32, leg: u8) -> bool
    ensures { result ≡ list_any (λ b. list_any (occupies place leg) b.items) bookings.now }
{
    bookings.iter().any(|b| b.occupies(place, leg))
}

/// Whether a leg of a place is taken.
pub(crate) fn is_taken(bookings: &[BookingRow], place: u32, leg: u8) -> bool
    ensures { result ≡ is_occupied bookings.now place leg }
{
    any_occupies(bookings, place, leg)
}

/// The taken legs of a half of a place as bits.
pub(crate) fn word_of_place(bookings: &[BookingRow], place: u32, half: u8) -> u64
    requires half { half < halves }
    ensures { result ≡ place_word bookings.now place half }
{
    let first = WORD_LEGS * half;
    let mut word = 0;
    let mut value = 1;
    for bit in 0..WORD_LEGS {
        if is_taken(bookings, place, bit + first) {
            word += value;
        }
        value *= 2;
    }
    word
}

/// Word w of a row.
pub(crate) fn word_of_row(bookings: &[BookingRow], row: u32, word: u8) -> u64
    requires { word < row_words }
    ensures { result ≡ row_word bookings.now row word }
{
    match booking_of(bookings, row) {
        Some(b) => {
            if word == STANDING_WORD {
                return row_word_of(b.phase, b.generation);
            }
            b.words[word as usize]
        }
        None => 0,
    }
}
