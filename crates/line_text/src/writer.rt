//! The parts of an export's lines, written at the end of a text.
ghost use Rattle.std.specs.Prelude.{◌≡◌, ◌++◌, ◌∷◌, [], OnOk, decimal};
ghost use Rattle.line_text.specs.Lines.{amount_text, field, first_line, item_text, last_line, number_field, said_item, said_successor, successor_text};

use history_model::successor::successor_of;
use itoa::Buffer;
use leg_masks::Item;
use std::alloc::AllocError;

/// A number.
pub(crate) fn push_number(text: &mut Vec<u8>, number: u64) -> Result<(), AllocError>
    ensures { OnOk result (text.new.items ≡ text.old.items ++ decimal number) }
{
    let mut buffer = Buffer::new();
    text.extend_from_slice(buffer.format(number).as_bytes())
}

/// A number as the next field of a line.
pub fn push_field(text: &mut Vec<u8>, number: u64) -> Result<(), AllocError>
    ensures { OnOk result (text.new.items ≡ text.old.items ++ number_field number) }
{
    text.push(b' ')?;
    push_number(text, number)
}

/// An item as the next field.
pub fn push_item(text: &mut Vec<u8>, item: Item) -> Result<(), AllocError>
    ensures { OnOk result (text.new.items ≡ text.old.items ++ field (item_text (said_item item))) }
{
    push_field(text, u64::from(item.place()))?;
    text.push(b'.')?;
    push_number(text, u64::from(item.span().from()))?;
    text.push(b'.')?;
    push_number(text, u64::from(item.span().to()))
}

/// An amount as the next field: `p`, or `m` where it is below 0, and its size.
pub fn push_amount(text: &mut Vec<u8>, amount: i64) -> Result<(), AllocError>
    ensures { OnOk result (text.new.items ≡ text.old.items ++ field (amount_text amount)) }
{
    text.extend_from_slice(if amount < 0 { b" m" } else { b" p" })?;
    push_number(text, amount.unsigned_abs())
}

/// The successor of a word as the next field.
pub fn push_successor(text: &mut Vec<u8>, word: u64) -> Result<(), AllocError>
    ensures { OnOk result (text.new.items ≡ text.old.items ++ field (successor_text (said_successor word))) }
{
    let Some(row) = successor_of(word) else {
        return text.extend_from_slice(b" -");
    };
    push_field(text, u64::from(row.row))?;
    text.push(b'.')?;
    push_number(text, u64::from(row.generation))
}

/// The first line, with the numbers of places and rows.
pub fn push_first_line(text: &mut Vec<u8>, places: u32, rows: u32) -> Result<(), AllocError>
    ensures { OnOk result (text.new.items ≡ text.old.items ++ (first_line places rows ++ 10 ∷ [])) }
{
    text.extend_from_slice(b"rail-export 1")?;
    push_field(text, u64::from(places))?;
    push_field(text, u64::from(rows))?;
    text.push(b'\n')?;
    Ok(())
}

/// The last line, with the number of bookings.
pub fn push_last_line(text: &mut Vec<u8>, count: u32) -> Result<(), AllocError>
    ensures { OnOk result (text.new.items ≡ text.old.items ++ (last_line count ++ 10 ∷ [])) }
{
    text.extend_from_slice(b"end")?;
    push_field(text, u64::from(count))?;
    text.push(b'\n')?;
    Ok(())
}
