ghost use Rattle.std.specs.Prelude.{◌≡◌, ◌^◌, ◌<◌, ◌≤◌, ℕ, decimal, ◌++◌, replicate, ◌==◌, position, Some, IfSome, IfNone};
ghost use Rattle.arrayvec.specs.ArrayVec.{array_vec_len};
ghost use Rattle.rail_ids.specs.Spelling.{booking_id_text, generation_text, last_generation};
ghost use Rattle.rail_ids.specs.Spelling.{IsIdOf, IsIdOfNoOther, IsNoId, HasNumbers, HasParts};

use crate::{LAST_GENERATION, RowNo};
use arrayvec::ArrayVec;
use itoa::Buffer;
use std::str;

/// The text of a booking's id: `B`, the row's number in at least six digits, and `-` and the generation after it where
/// that isn't 0.
pub type BookingId = ArrayVec<u8, 17>;

/// The one spelling of a booking's id: `B`, then the row's number in decimal digits, with zeros before it up to six,
/// and for a further booking of the row `-` and its generation.
pub fn write_booking_id(row: RowNo) -> BookingId
    requires generation { row.generation ≤ last_generation }
    ensures spelling { result.items ≡ booking_id_text row.row row.generation }
{
    let mut id = row_id(row.row);
    push_generation(&mut id, row.generation);
    id
}

// `B` and the row's number.
fn row_id(row: u32) -> BookingId
    ensures spelling { result.items ≡ booking_id_text row 0 }
    ensures short { array_vec_len result ≤ 11 }
{
    let mut buffer = Buffer::new();
    let digits = buffer.format(row);
    let mut id = BookingId::new();
    id.push(b'B');
    for _ in 0..6usize.saturating_sub(digits.len()) {
        id.push(b'0');
    }
    for digit in digits.as_bytes() {
        id.push(*digit);
    }
    id
}

fn push_generation(id: &mut BookingId, generation: u32)
    requires generation { generation ≤ last_generation }
    requires room { array_vec_len id.old ≤ 11 }
    ensures spelling { id.new.items ≡ id.old.items ++ generation_text generation }
{
    if generation == 0 {
        return;
    }
    let mut buffer = Buffer::new();
    let digits = buffer.format(generation as u16);
    id.push(b'-');
    for digit in digits.as_bytes() {
        id.push(*digit);
    }
}

/// The booking whose id this text is, by its row and generation: `None` exactly where it is no booking's. No other
/// booking has this id.
pub fn read_booking_id(text: &[u8]) -> Option<RowNo>
    ensures some { IfSome result (IsIdOf text.now) }
    ensures only { IfSome result (IsIdOfNoOther text.now) }
    ensures none { IfNone result (IsNoId text.now) }
{
    let row = numbers_of(text)?;
    if row.generation <= LAST_GENERATION && write_booking_id(row).as_slice() == text {
        Some(row)
    } else {
        None
    }
}

// The numbers after the letter, where the text is an id. Another text may give some too.
fn numbers_of(text: &[u8]) -> Option<RowNo>
    ensures { HasNumbers text.now result }
{
    let (_, numbers) = text.split_first()?;
    let (row, generation) = parts_of(numbers);
    Some(RowNo {
        row: parse(row)?,
        generation: parse(generation)?,
    })
}

// The digits of the row and of the generation, which is 0 where no `-` stands between them.
fn parts_of(numbers: &[u8]) -> (&[u8], &[u8])
    ensures { HasParts numbers.now result.0.now result.1.now }
{
    match dash_of(numbers) {
        Some(at) => (&numbers[..at], &numbers[at + 1..]),
        None => (numbers, b"0".as_slice()),
    }
}

fn dash_of(numbers: &[u8]) -> Option<usize>
    ensures { result ≡ position (λ b. b == 45) numbers.now }
{
    numbers.iter().position(|byte| *byte == b'-')
}

// The number of digits, where there may be zeros in front. A text that is no number may give one too.
fn parse(digits: &[u8]) -> Option<u32>
    ensures { (k n : ℕ) → n < 2 ^ 32 → digits.now ≡ replicate k 48 ++ decimal n → result ≡ Some n }
{
    match str::from_utf8(digits) {
        Ok(text) => match text.parse::<u32>() {
            Ok(number) => Some(number),
            Err(_) => None,
        },
        Err(_) => None,
    }
}
