//! The parts of a journal's text, written at its end.
ghost use Rattle.std.specs.Prelude.{◌≡◌, ◌++◌, ◌∷◌, [], OnOk, IfOk};
ghost use Rattle.line_text.specs.Lines.{field, number_field, first_line, last_line};
ghost use Rattle.journal_text.specs.Texts.{cut_text, head_text, own_sum, sum_of};
ghost use Rattle.journal_text.specs.Reads.{said_opening_text};

use crate::reader::front;
use crate::sum::Sum;
use itoa::Buffer;
use std::alloc::AllocError;

/// A number as the next field of a line.
pub(crate) fn push_field(text: &mut Vec<u8>, number: u64) -> Result<(), AllocError>
    ensures { OnOk result (text.new.items ≡ text.old.items ++ number_field number) }
{
    text.push(b' ')?;
    let mut buffer = Buffer::new();
    text.extend_from_slice(buffer.format(number).as_bytes())
}

/// A sum as the next field of a line.
pub(crate) fn push_sum(text: &mut Vec<u8>, sum: &Sum) -> Result<(), AllocError>
    ensures { OnOk result (text.new.items ≡ text.old.items ++ field sum.now.digits) }
{
    text.push(b' ')?;
    text.extend_from_slice(&sum.digits)
}

/// Writes the first line of a journal, and gives its sum, which is the one before the first cut. The print says what
/// the numbers mean.
pub fn push_head(text: &mut Vec<u8>, places: u32, rows: u32, print: &Sum) -> Result<Sum, AllocError>
    ensures text { OnOk result (text.new.items ≡ text.old.items
        ++ head_text (record { places = places; rows = rows; print = print.now.digits })) }
    ensures sum { IfOk result (λ sum. sum.digits ≡ sum_of
        (head_text (record { places = places; rows = rows; print = print.now.digits }))) }
{
    let start = text.len();
    text.extend_from_slice(b"rail-journal 1")?;
    push_field(text, u64::from(places))?;
    push_field(text, u64::from(rows))?;
    push_sum(text, print)?;
    text.push(b'\n')?;
    Ok(Sum::of(text.as_slice().split_at(start).1))
}

/// Writes the cut of that many lines, each with its line feed, which follows a text with this sum; and gives its own
/// sum.
pub fn push_cut(
    text: &mut Vec<u8>,
    number: u64,
    before: &Sum,
    count: u64,
    lines: &[u8],
) -> Result<Sum, AllocError>
    ensures text { OnOk result (text.new.items ≡ text.old.items
        ++ cut_text (record { number = number; count = count; before = before.now.digits; body = lines.now })) }
    ensures sum { IfOk result (λ sum. sum.digits ≡ own_sum
        (record { number = number; count = count; before = before.now.digits; body = lines.now })) }
{
    let start = text.len();
    push_opening(text, number, before, count, lines.len() as u64)?;
    text.extend_from_slice(lines)?;
    let sum = Sum::of(text.as_slice().split_at(start).1);
    text.extend_from_slice(b"sum")?;
    push_sum(text, &sum)?;
    text.push(b'\n')?;
    Ok(sum)
}

// The first line of a cut.
fn push_opening(
    text: &mut Vec<u8>,
    number: u64,
    before: &Sum,
    count: u64,
    size: u64,
) -> Result<(), AllocError>
    ensures { OnOk result (text.new.items ≡ text.old.items
        ++ said_opening_text (record { number = number; count = count; size = size; before = before.now })) }
{
    text.extend_from_slice(b"cut")?;
    push_field(text, number)?;
    push_field(text, count)?;
    push_field(text, size)?;
    push_sum(text, before)?;
    text.push(b'\n')?;
    Ok(())
}

/// The first line of an export, with the numbers of places and rows.
pub(crate) fn push_first_line(text: &mut Vec<u8>, places: u64, rows: u64) -> Result<(), AllocError>
    ensures { OnOk result (text.new.items ≡ text.old.items ++ (first_line places rows ++ 10 ∷ [])) }
{
    text.extend_from_slice(b"rail-export 1")?;
    push_field(text, places)?;
    push_field(text, rows)?;
    text.push(b'\n')?;
    Ok(())
}

/// The last line of an export, with the number of its bookings.
pub(crate) fn push_last_line(text: &mut Vec<u8>, count: u64) -> Result<(), AllocError>
    ensures { OnOk result (text.new.items ≡ text.old.items ++ (last_line count ++ 10 ∷ [])) }
{
    text.extend_from_slice(b"end")?;
    push_field(text, count)?;
    text.push(b'\n')?;
    Ok(())
}
