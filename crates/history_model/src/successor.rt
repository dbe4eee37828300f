ghost use Rattle.std.specs.Prelude.{◌≡◌, ◌≤◌, IfSome, IfNone};
ghost use Rattle.rail_ids.specs.Spelling.{last_generation};
ghost use Rattle.history_model.specs.Booking.{successor_word as spec_successor_word};

use rail_ids::RowNo;

/// How many rows the word of a successor has room for.
pub(crate) const SUCCESSOR_ROWS: u64 = 4_294_967_296;

/// A booking as the successor of another: the word that says its row and generation. 0 is for none.
pub fn successor_word(row: RowNo) -> u64
    requires generation { row.generation ≤ last_generation }
    ensures { result ≡ spec_successor_word row.row row.generation }
{
    1 + u64::from(row.row) + SUCCESSOR_ROWS * u64::from(row.generation)
}

/// The successor of a word: `None` exactly where it is 0.
pub fn successor_of(word: u64) -> Option<RowNo>
    ensures some { IfSome result (λ row. word ≡ spec_successor_word row.row row.generation) }
    ensures none { IfNone result (word ≡ 0) }
{
    let before = word.checked_sub(1)?;
    Some(RowNo {
        row: (before % SUCCESSOR_ROWS) as u32,
        generation: (before / SUCCESSOR_ROWS) as u32,
    })
}
