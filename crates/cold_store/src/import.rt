//! Books that open with the bookings of an export.
ghost use Rattle.std.specs.Prelude.{◌≡◌, ◌+◌, ◌<◌, ◌≤◌, [], All, IfErr, IfNone, IfOk, IfSome, length, min};
ghost use Rattle.leg_masks.specs.Interval.{most_places};
ghost use Rattle.claim_rule.specs.Rule.{IsPlaceLegs};
ghost use Rattle.history_model.specs.Booking.{most_rows};
ghost use Rattle.claim_rule.specs.Out.{IsTidy};
ghost use Rattle.claim_rule.specs.Desks.{IsNew, IsOf};
ghost use Rattle.cold_store.specs.Drafts.{EachDraft, IsDraftOf, IsNextRow, IsSomeDraft, ReadsNext};
ghost use Rattle.cold_store.specs.Imports.{AreSound, IsFaultOf, IsImportFault, IsReadFault, IsReadText, OpensAs, last_number};
ghost use Rattle.line_text.specs.Lines.{IsNumber};
ghost use Rattle.cold_store.specs.Reads.{EatsLast, ReadsFirst};

use crate::bookings::{Line, read_line};
use crate::draft::Draft;
use crate::fault::ImportFault;
use claim_rule::{Books, Desk, adopt_books};
use line_text::Reader;
use std::alloc::Global;

/// Books that open with the bookings of an export, and their first desk. All other rows are free, and the history is
/// empty.
pub fn import_books(
    alloc: Global,
    legs: &[u8],
    rows: u32,
    text: &[u8],
) -> Result<(Books, Desk), ImportFault>
    requires places { (0 < length legs.now) × (length legs.now ≤ most_places) }
    requires legs { All IsPlaceLegs legs.now }
    requires rows { (0 < rows) × (rows ≤ most_rows) }
    ensures layout { IfOk result (λ t. OpensAs legs.now rows text.now t.0.layout) }
    ensures own { IfOk result (λ t. IsOf t.0 t.1) }
    ensures desk { IfOk result (λ t. IsNew t.1 0 []) }
    ensures tidy { IfOk result (λ t. IsTidy t.1) }
    ensures err { IfErr result (IsImportFault legs.now rows text.now) }
{
    let mut draft = Draft::new(alloc, legs.len() as u32, rows)?;
    let sizes = read_text(&mut draft, legs, text)?;
    if sizes.0 != legs.len() as u64 || sizes.1 != u64::from(rows) {
        return Err(ImportFault::Sizes);
    }
    if let Some(fault) = fault_of(&draft) {
        return Err(fault);
    }
    Ok(adopt_books(alloc, legs, rows, draft.words.as_slice())?)
}

// What is wrong with the bookings of a text of the right sizes.
fn fault_of(draft: &Draft) -> Option<ImportFault>
    requires draft { IsSomeDraft draft.now }
    requires rows { draft.now.rows ≤ most_rows }
    ensures some { IfSome result
        (λ fault. EachDraft draft.now (λ legs said. IsFaultOf legs draft.now.rows said fault)) }
    ensures none { IfNone result (EachDraft draft.now (λ legs said. AreSound legs draft.now.rows said)) }
{
    if let Some(row) = draft.first_wrong() {
        return Some(ImportFault::RowWrong { row });
    }
    if let Some(place) = draft.overlap {
        return Some(ImportFault::Overlap { place });
    }
    if let Some(row) = draft.own_successor() {
        return Some(ImportFault::OwnSuccessor { row: row as u32 });
    }
    None
}

// Adds all lines of the text to the draft, and gives the numbers of places and rows that its first line says.
fn read_text(draft: &mut Draft, legs: &[u8], text: &[u8]) -> Result<(u64, u64), ImportFault>
    requires places { length legs.now ≤ most_places }
    requires legs { All IsPlaceLegs legs.now }
    requires draft { IsDraftOf legs.now draft.old.rows [] draft.old }
    ensures ok { IfOk result (λ sizes. IsReadText legs.now text.now sizes.0 sizes.1 draft.new) }
    ensures rows { IfOk result (λ _. draft.new.rows ≡ draft.old.rows) }
    ensures err { IfErr result (IsReadFault text.now) }
{
    let mut reader = Reader { rest: text };
    let Some(sizes) = first_line(&mut reader) else {
        return Err(ImportFault::NotAnExport { line: 1 });
    };
    while !reader.eat(b"end") {
        let Some(line) = next_line(&mut reader, draft, legs) else {
            return Err(ImportFault::NotAnExport {
                line: line_behind(draft, 2),
            });
        };
        draft.add(&line)?;
    }
    if !last_line(&mut reader, draft.lines.len() as u64) {
        return Err(ImportFault::NotAnExport {
            line: line_behind(draft, 2),
        });
    }
    if !reader.rest.is_empty() {
        return Err(ImportFault::NotAnExport {
            line: line_behind(draft, 3),
        });
    }
    Ok(sizes)
}

// The number of the line that comes this many after those of the bookings; the greatest where it is greater.
fn line_behind(draft: &Draft, more: u32) -> u32
    ensures few { IsNumber (length draft.now.lines) }
    ensures number { result ≡ min (length draft.now.lines + more) last_number }
{
    let bookings = u32::try_from(draft.lines.len()).unwrap_or(u32::MAX);
    bookings.saturating_add(more)
}

// The numbers of the first line.
fn first_line(reader: &mut Reader<'_>) -> Option<(u64, u64)>
    ensures { ReadsFirst reader.old.rest.now reader.new.rest.now result }
{
    if !reader.eat(b"rail-export 1") {
        return None;
    }
    let sizes = reader.fields()?;
    if !reader.eat(b"\n") {
        return None;
    }
    Some(sizes)
}

// The next line, if it is one of a booking in a greater row than all before.
fn next_line(reader: &mut Reader<'_>, draft: &Draft, legs: &[u8]) -> Option<Line>
    requires places { length legs.now ≤ most_places }
    requires legs { All IsPlaceLegs legs.now }
    ensures some { IfSome result (λ line. IsNextRow draft.now.lines line.head.row) }
    ensures read { ReadsNext legs.now draft.now.lines reader.old.rest.now reader.new.rest.now result }
{
    let line = read_line(reader, legs)?;
    if !draft.is_next(line.head.row) {
        return None;
    }
    Some(line)
}

// Whether the last line, after `end`, says that this many bookings were read.
fn last_line(reader: &mut Reader<'_>, count: u64) -> bool
    ensures { EatsLast count reader.old.rest.now reader.new.rest.now result }
{
    reader.field() == Some(count) && reader.eat(b"\n")
}
