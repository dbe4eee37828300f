//! Numbers between marks.

ghost use Rattle.std.specs.Prelude.{◌≡◌, ◌+◌, ◌≤◌, ◌<◌, ◌++◌, length, Some, None, IfSome, IfNone, min, ◌*◌, ◌-◌, true};
ghost use Rattle.arrayvec.specs.ArrayVec.{array_vec_len};
ghost use Rattle.offer_codes.specs.Marked.{marked, numbers_in};
ghost use Rattle.offer_codes.specs.Rows.{is_row, row_marks};
ghost use Rattle.offer_codes.specs.Found.{row_value};

use arrayvec::ArrayVec;
use itoa::{Buffer, Integer};
use rail_ids::{LAST_GENERATION, RowNo};

/// The last row of the largest table.
const LAST_ROW: u64 = 262_143;

/// The numbers of a text, where there are at most as many as the longest code has.
pub(crate) fn numbers(text: &[u8]) -> Option<ArrayVec<u64, 18>>
    ensures some { IfSome result (λ v. v.items ≡ numbers_in None text.now) }
    ensures none { IfNone result (18 < length (numbers_in None text.now)) }
{
    let mut found = ArrayVec::new();
    let mut current = None;
    for b in text {
        let digit = b.is_ascii_digit();
        match current {
            None => {
                if digit {
                    current = Some(u64::from(*b - b'0'));
                }
            }
            Some(number) => {
                if digit {
                    current = Some(with_digit(number, *b));
                } else {
                    if found.is_full() {
                        return None;
                    }
                    found.push(number);
                    current = None;
                }
            }
        }
    }
    if let Some(number) = current {
        if found.is_full() {
            return None;
        }
        found.push(number);
    }
    Some(found)
}

fn with_digit(number: u64, b: u8) -> u64
    requires { 48 ≤ b }
    ensures { result ≡ min (number * 10 + (b - 48)) 18_446_744_073_709_551_615 }
{
    number
        .saturating_mul(10)
        .saturating_add(u64::from(b - b'0'))
}

/// Appends a mark and a number.
pub(crate) fn push_number<I: Integer>(text: &mut ArrayVec<u8, 128>, mark: &[u8], number: I)
    requires { array_vec_len text.old + length mark.now + I.MAX_STR_LEN ≤ 128 }
    ensures items { text.new.items ≡ text.old.items ++ (mark.now ++ I.text number) }
    ensures len { array_vec_len text.new ≤ array_vec_len text.old + length mark.now + I.MAX_STR_LEN }
{
    push_bytes(text, mark);
    push_bytes(text, Buffer::new().format(number).as_bytes());
}

fn push_bytes(text: &mut ArrayVec<u8, 128>, bytes: &[u8])
    requires { array_vec_len text.old + length bytes.now ≤ 128 }
    ensures items { text.new.items ≡ text.old.items ++ bytes.now }
    ensures len { array_vec_len text.new ≡ array_vec_len text.old + length bytes.now }
{
    for byte in bytes {
        text.push(*byte);
    }
}

/// Appends a mark and a row, with its generation where that isn't 0.
pub(crate) fn push_row(text: &mut ArrayVec<u8, 128>, mark: &[u8], row: RowNo)
    requires range { is_row row ≡ true }
    requires room { array_vec_len text.old + length mark.now ≤ 100 }
    ensures spelling { text.new.items ≡ text.old.items ++ marked (row_marks mark.now row) }
    ensures len { array_vec_len text.new ≤ array_vec_len text.old + length mark.now + 16 }
{
    push_number(text, mark, row.row);
    if row.generation != 0 {
        push_number(text, b".".as_slice(), row.generation as u16);
    }
}

/// The row of its numbers, where they are in range.
pub(crate) fn row_of(row: u64, generation: u64) -> Option<RowNo>
    ensures { result ≡ row_value row generation }
{
    if row > LAST_ROW || generation > u64::from(LAST_GENERATION) {
        return None;
    }
    Some(RowNo {
        row: row as u32,
        generation: generation as u32,
    })
}
