// What a drill came to.
ghost use Rattle.std.specs.Prelude.{◌≡◌, ◌≤◌, ◌<◌, length, IsTrue};
ghost use Rattle.history_model.specs.History.{IsLegal, state_of};
ghost use Rattle.history_model.specs.Booking.{phase_of_row};
ghost use Rattle.history_model.specs.Phase.{is_live};
ghost use Rattle.history_model.specs.Words.{AreWordsOf};
ghost use Rattle.host_drill.specs.Totals.{begins, sold_of, times};

use claim_rule::Wall;
use history_model::booking::STANDING_WORD;
use history_model::phase::{Phase, read_row_word};

/// Whether the first text begins the second.
fn is_front(front: &[u8], text: &[u8]) -> bool
    ensures { result ≡ begins front.now text.now }
{
    let mut left = front;
    let mut rest = text;
    while let Some((first, more)) = left.split_first() {
        match rest.split_first() {
            Some((byte, behind)) if *byte == *first => rest = behind,
            _ => return false,
        }
        left = more;
    }
    true
}

/// How often the line stands in the text.
pub fn count_times(line: &[u8], text: &[u8]) -> usize
    ensures times { result ≡ times line.now text.now }
    ensures few { result ≤ length text.now }
{
    let mut count = 0;
    let mut rest = text;
    while let Some((_, more)) = rest.split_first() {
        if is_front(line, rest) {
            count += 1;
        }
        rest = more;
    }
    count
}

// Whether a booking in this phase has its places.
fn is_live_phase(phase: Phase) -> bool
    ensures { result ≡ is_live phase }
{
    matches!(
        phase,
        Phase::Prebooked | Phase::Confirmed | Phase::Fulfilled
    )
}

// Whether the row's present booking is live.
fn is_sold(wall: &Wall, row: u32) -> bool
    requires within { row < wall.now.layout.rows }
    requires legal { IsLegal wall.now.layout wall.now.history }
    requires words { AreWordsOf wall.now.layout (state_of wall.now.layout wall.now.history) wall.now.words }
    ensures { result ≡ is_live (phase_of_row (state_of wall.now.layout wall.now.history) row) }
{
    let Some(word) = wall.row_word(row, STANDING_WORD) else {
        return false;
    };
    match read_row_word(word) {
        Some((phase, _)) => is_live_phase(phase),
        None => false,
    }
}

/// How many of the rows have a live booking.
pub fn count_sold(wall: &Wall, rows: u32) -> u32
    requires rows { rows ≡ wall.now.layout.rows }
    requires legal { IsLegal wall.now.layout wall.now.history }
    requires words { AreWordsOf wall.now.layout (state_of wall.now.layout wall.now.history) wall.now.words }
    ensures { result ≡ sold_of (state_of wall.now.layout wall.now.history) rows }
{
    let mut count = 0;
    for row in 0..rows {
        if is_sold(wall, row) {
            count += 1;
        }
    }
    count
}
