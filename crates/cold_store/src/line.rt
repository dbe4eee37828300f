//! The line of a booking, written at the end of a text.
ghost use Rattle.std.specs.Prelude.{◌≡◌, ◌++◌, OnOk};
ghost use Rattle.cold_store.specs.Exports.{stub_text};
ghost use Rattle.line_text.specs.Lines.{end_fields, head_text};
ghost use Rattle.cold_store.specs.Written.{item_written, items_written, kept_text, line_numbers, said_end, said_line};

use history_model::phase::{EndKind, Phase};
use leg_masks::Item;
use line_text::{letter_of, push_amount, push_field, push_item, push_successor};
use std::alloc::AllocError;

/// The end of a booking, as its line says it. The successor is the word of a row and a generation, or 0 for none.
#[derive(Clone, Copy)]
pub struct LineEnd {
    pub amount: i64,
    pub moment: u64,
    pub successor: u64,
}

/// What the line of a sealed booking says. Its end is written only where its phase is an ended one.
#[derive(Clone, Copy)]
pub struct BookingLine<'a> {
    pub row: u32,
    pub generation: u32,
    pub phase: Phase,
    pub retailer: u32,
    pub limit: u64,
    pub total: u64,
    pub items: &'a [Item],
    pub end: LineEnd,
}

/// The line of a sealed booking, with its line feed.
pub fn push_line(text: &mut Vec<u8>, line: &BookingLine<'_>) -> Result<(), AllocError>
    ensures { OnOk result (text.new.items ≡ text.old.items ++ kept_text (said_line line.now)) }
{
    push_head(text, line.row, line.generation, line.phase)?;
    push_numbers(text, line)?;
    push_items(text, line.items)?;
    push_end(text, line.phase, line.end)?;
    text.push(b'\n')?;
    Ok(())
}

/// The line of a row that serves again, and whose booking isn't made yet, with its line feed.
pub fn push_stub(text: &mut Vec<u8>, row: u32, generation: u32) -> Result<(), AllocError>
    ensures { OnOk result (text.new.items ≡ text.old.items ++ stub_text row generation) }
{
    push_head(text, row, generation, Phase::Ended(EndKind::Release))?;
    text.extend_from_slice(b" 0 0 0 1 0.0.1 p0 0 -\n")?;
    Ok(())
}

/// The first four fields of a line.
pub(crate) fn push_head(
    text: &mut Vec<u8>,
    row: u32,
    generation: u32,
    phase: Phase,
) -> Result<(), AllocError>
    ensures { OnOk result (text.new.items ≡ text.old.items ++ head_text row generation phase) }
{
    text.extend_from_slice(b"row")?;
    push_field(text, u64::from(row))?;
    push_field(text, u64::from(generation))?;
    text.push(b' ')?;
    if let Some(letter) = letter_of(phase) {
        text.push(letter)?;
    }
    Ok(())
}

// The four fields between the head and the items.
fn push_numbers(text: &mut Vec<u8>, line: &BookingLine<'_>) -> Result<(), AllocError>
    ensures { OnOk result (text.new.items ≡ text.old.items ++ line_numbers line.now) }
{
    push_field(text, u64::from(line.retailer))?;
    push_field(text, line.limit)?;
    push_field(text, line.total)?;
    push_field(text, line.items.len() as u64)
}

// The fields of these items.
fn push_items(text: &mut Vec<u8>, items: &[Item]) -> Result<(), AllocError>
    ensures { OnOk result (text.new.items ≡ text.old.items ++ items_written items.now) }
{
    for item in items {
        push_one(text, item)?;
    }
    Ok(())
}

// The field of an item.
fn push_one(text: &mut Vec<u8>, item: &Item) -> Result<(), AllocError>
    ensures { OnOk result (text.new.items ≡ text.old.items ++ item_written item.now) }
{
    push_item(text, *item)
}

// The fields of an end, where the phase is an ended one.
fn push_end(text: &mut Vec<u8>, phase: Phase, end: LineEnd) -> Result<(), AllocError>
    ensures { OnOk result (text.new.items ≡ text.old.items ++ end_fields phase (said_end end)) }
{
    let Phase::Ended(_) = phase else {
        return Ok(());
    };
    push_amount(text, end.amount)?;
    push_field(text, end.moment)?;
    push_successor(text, end.successor)
}
