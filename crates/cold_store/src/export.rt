//! The export of a closed wall.
ghost use Rattle.std.specs.Prelude.{◌≡◌, ◌<◌, ◌++◌, ℤ, true, OnOk, IfErr, IfOk, is_some};
ghost use Rattle.history_model.specs.Allowed.{IsAmountOf, OnRow};
ghost use Rattle.history_model.specs.Booking.{amount_word};
ghost use Rattle.history_model.specs.Phase.{is_sealed};
ghost use Rattle.history_model.specs.declared.phase.Phase.TheVariants.{Ended};
ghost use Rattle.claim_rule.specs.Openings.{kept_of_row};
ghost use Rattle.cold_store.specs.Exports.{AddsRows, IsClosed, IsExport, IsExportFault, IsShownAs, end_text, items_text, row_text, state_on, words_text};

use crate::fault::ExportFault;
use crate::line::{push_head, push_stub};
use crate::wall_rows::{first_held, first_open, item_at, live_words, shown_at, word_at};
use claim_rule::Wall;
use history_model::booking::{
    COUNT_WORD, END_AMOUNT_WORD, END_MOMENT_WORD, END_SUCCESSOR_WORD, LIMIT_WORD, RETAILER_WORD,
    TOTAL_WORD,
};
use history_model::phase::{EndKind, Phase};
use line_text::{
    push_amount, push_field, push_first_line, push_item, push_last_line, push_successor,
};
use std::alloc::{AllocError, Global};

/// The export of a wall: the bookings that are kept. Nothing is said of how much memory it takes.
pub fn export_text(alloc: Global, wall: &Wall) -> Result<Vec<u8>, ExportFault>
    requires closed { IsClosed wall.now }
    ensures ok { IfOk result (λ text. IsExport wall.now text.items) }
    ensures err { IfErr result (IsExportFault wall.now) }
{
    if let Some(row) = first_open(wall) {
        return Err(ExportFault::RowOpen { row });
    }
    let live = live_words(alloc, wall)?;
    if let Some(place) = first_held(wall, live.as_slice()) {
        return Err(ExportFault::PlaceHeld { place });
    }
    let mut text = Vec::new(alloc);
    push_first_line(&mut text, wall.places(), wall.rows())?;
    let count = push_rows(&mut text, wall)?;
    push_last_line(&mut text, count)?;
    Ok(text)
}

// The lines of all bookings, and how many they are.
fn push_rows(text: &mut Vec<u8>, wall: &Wall) -> Result<u32, AllocError>
    requires closed { IsClosed wall.now }
    ensures { IfOk result (AddsRows wall.now text.old.items text.new.items) }
{
    let mut count = 0;
    for row in 0..wall.rows() {
        if push_row(text, wall, row)? {
            count += 1;
        }
    }
    Ok(count)
}

// The line of a row, and whether it has one.
fn push_row(text: &mut Vec<u8>, wall: &Wall, row: u32) -> Result<bool, AllocError>
    requires closed { IsClosed wall.now }
    requires row { row < wall.now.layout.rows }
    ensures line { OnOk result (text.new.items ≡ text.old.items ++ row_text wall.now row) }
    ensures kept { IfOk result (λ has. has ≡ is_some (kept_of_row (state_on wall.now) row)) }
{
    let (phase, generation) = shown_at(wall, row);
    match phase {
        Phase::Free => Ok(false),
        Phase::Making => {
            if generation == 0 {
                return Ok(false);
            }
            push_stub(text, row, generation)?;
            Ok(true)
        }
        _ => {
            push_booking(text, wall, row, phase, generation)?;
            Ok(true)
        }
    }
}

// The line of a booking that is sealed.
fn push_booking(
    text: &mut Vec<u8>,
    wall: &Wall,
    row: u32,
    phase: Phase,
    generation: u32,
) -> Result<(), AllocError>
    requires closed { IsClosed wall.now }
    requires row { row < wall.now.layout.rows }
    requires shown { IsShownAs wall.now row phase generation }
    ensures { OnOk result (text.new.items ≡ text.old.items ++ row_text wall.now row) }
{
    push_head(text, row, generation, phase)?;
    push_words(text, wall, row)?;
    push_items(text, wall, row)?;
    push_last_fields(text, wall, row, phase)?;
    text.push(b'\n')?;
    Ok(())
}

// Words 1 to 4 of a row.
fn push_words(text: &mut Vec<u8>, wall: &Wall, row: u32) -> Result<(), AllocError>
    requires closed { IsClosed wall.now }
    requires row { row < wall.now.layout.rows }
    ensures { OnOk result (text.new.items ≡ text.old.items ++ words_text wall.now row) }
{
    push_field(text, word_at(wall, row, RETAILER_WORD))?;
    push_field(text, word_at(wall, row, LIMIT_WORD))?;
    push_field(text, word_at(wall, row, TOTAL_WORD))?;
    push_field(text, word_at(wall, row, COUNT_WORD))
}

// The items of a row's booking.
fn push_items(text: &mut Vec<u8>, wall: &Wall, row: u32) -> Result<(), AllocError>
    requires closed { IsClosed wall.now }
    requires row { row < wall.now.layout.rows }
    requires sealed { OnRow (state_on wall.now) row (λ b. is_sealed b.phase ≡ true) }
    ensures { OnOk result (text.new.items ≡ text.old.items ++ items_text wall.now row) }
{
    for k in 0..word_at(wall, row, COUNT_WORD) as u8 {
        push_item(text, item_at(wall, row, k))?;
    }
    Ok(())
}

// The end of a row's booking, where it has ended.
fn push_last_fields(
    text: &mut Vec<u8>,
    wall: &Wall,
    row: u32,
    phase: Phase,
) -> Result<(), AllocError>
    requires closed { IsClosed wall.now }
    requires row { row < wall.now.layout.rows }
    requires shown { (is_sealed phase ≡ true) × OnRow (state_on wall.now) row (λ b. b.phase ≡ phase) }
    ensures { OnOk result (text.new.items ≡ text.old.items ++ end_text wall.now row) }
{
    match phase {
        Phase::Ended(kind) => push_end(text, wall, row, kind),
        _ => Ok(()),
    }
}

// The end of a row's booking, by its words 5 to 7.
fn push_end(text: &mut Vec<u8>, wall: &Wall, row: u32, kind: EndKind) -> Result<(), AllocError>
    requires closed { IsClosed wall.now }
    requires row { row < wall.now.layout.rows }
    requires ended { OnRow (state_on wall.now) row (λ b. b.phase ≡ Ended kind) }
    ensures { OnOk result (text.new.items ≡ text.old.items ++ end_text wall.now row) }
{
    push_amount(text, amount_of(kind, word_at(wall, row, END_AMOUNT_WORD)))?;
    push_field(text, word_at(wall, row, END_MOMENT_WORD))?;
    push_successor(text, word_at(wall, row, END_SUCCESSOR_WORD))
}

// The amount of an end by its word.
fn amount_of(kind: EndKind, word: u64) -> i64
    requires { (amount : ℤ) × IsAmountOf kind amount × (word ≡ amount_word kind amount) }
    ensures { IsAmountOf kind result × (word ≡ amount_word kind result) }
{
    match kind {
        EndKind::Release | EndKind::Expire => 0,
        EndKind::Refund => word as i64,
        EndKind::Exchange => {
            if word % 2 == 0 {
                (word / 2) as i64
            } else {
                -((word / 2) as i64) - 1
            }
        }
    }
}
