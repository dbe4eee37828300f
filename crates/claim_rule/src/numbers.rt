//! The numbers of words in the table: places first, then rows.
ghost use Rattle.std.specs.Prelude.{◌≡◌, ◌+◌, ◌*◌};
ghost use Rattle.leg_masks.specs.Interval.{halves};
ghost use Rattle.history_model.specs.Booking.{row_words};
ghost use Rattle.history_model.specs.Words.{place_number};

use history_model::booking::ROW_WORDS;
use leg_masks::HALVES;

/// The number of the word of a half of a place.
pub(crate) fn number_of_place(place: u32, half: u8) -> usize
    ensures { result ≡ place_number place half }
{
    HALVES as usize * place as usize + half as usize
}

/// The number of a row's word in a table of this number of places. That of the row after the last is the number of all
/// words.
pub(crate) fn number_of_row(places: u32, row: u32, word: u8) -> usize
    ensures { result ≡ halves * places + (row_words * row + word) }
{
    HALVES as usize * places as usize + (ROW_WORDS * row as usize + word as usize)
}
