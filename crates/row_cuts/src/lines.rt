//! The lines of rows.
ghost use Rattle.std.specs.Prelude.{◌≡◌, ◌+◌, ◌-◌, ◌<◌, ◌≤◌, ◌∷◌, [], IfOk, cond, filter, min, true};
ghost use Rattle.std.specs.List.{range_with_len};
ghost use Rattle.history_model.specs.Booking.{most_rows};
ghost use Rattle.claim_rule.specs.Calls.{AddsStepsBy};
ghost use Rattle.claim_rule.specs.Desks.{IsOf};
ghost use Rattle.claim_rule.specs.Out.{AllLooks, IsTidy, KeepsEndings, KeepsHolds};
ghost use Rattle.row_cuts.specs.Lines.{WritesBlocks, WritesLines, WritesMarked, block_rows, group_blocks, is_set};
ghost use Rattle.row_cuts.specs.Lines.{mark_blocks, mark_groups};

use crate::looks::push_row;
use claim_rule::{Books, Desk};
use std::alloc::AllocError;

/// How many rows have their marks in one number.
const BLOCK_ROWS: u32 = 64;

/// How many blocks have their marks in one number.
const GROUP_BLOCKS: u32 = 64;

// How many numbers have the marks of all rows: one for each block.
fn block_count(books: &Books) -> u32
    ensures count { result ≡ mark_blocks books.now.layout.rows }
    ensures most { books.now.layout.rows ≤ most_rows }
{
    books.rows() / BLOCK_ROWS + 1
}

// How many groups of blocks there are.
fn group_count(books: &Books) -> u32
    ensures count { result ≡ mark_groups books.now.layout.rows }
    ensures most { books.now.layout.rows ≤ most_rows }
{
    block_count(books) / GROUP_BLOCKS + 1
}

/// Writes the lines of the rows that are set in some marks after the text, in rising row, and gives their count. It is
/// to take the marks of all rows, which clears them: that it takes these, or any, no clause says. A row that is marked
/// while this runs is to have its mark taken now, or the next time.
pub fn push_marked_lines(
    text: &mut Vec<u8>,
    books: &Books,
    desk: &mut Desk,
) -> Result<u64, AllocError>
    requires own { IsOf books.now desk.old }
    ensures own { IsOf books.now desk.new }
    ensures lines { IfOk result (λ count. AddsStepsBy (WritesMarked books.now.layout.rows text.old.items text.new.items
        count) desk.old desk.new) }
    ensures looks { AddsStepsBy AllLooks desk.old desk.new }
    ensures holds { KeepsHolds desk.old desk.new }
    ensures endings { KeepsEndings desk.old desk.new }
    ensures tidy { IsTidy desk.old → IsTidy desk.new }
{
    let mut count = 0;
    for group in 0..group_count(books) {
        let marked = books.take_marked_blocks(group);
        count += push_group(text, books, desk, GROUP_BLOCKS * group, marked)?;
    }
    Ok(count)
}

/// Writes the lines of all rows after the text, in rising row, and gives their count.
pub fn push_all_lines(text: &mut Vec<u8>, books: &Books, desk: &mut Desk) -> Result<u64, AllocError>
    requires own { IsOf books.now desk.old }
    ensures own { IsOf books.now desk.new }
    ensures lines { IfOk result (λ count. AddsStepsBy (WritesLines (range_with_len 0 books.now.layout.rows)
        text.old.items text.new.items count) desk.old desk.new) }
    ensures looks { AddsStepsBy AllLooks desk.old desk.new }
    ensures holds { KeepsHolds desk.old desk.new }
    ensures endings { KeepsEndings desk.old desk.new }
    ensures tidy { IsTidy desk.old → IsTidy desk.new }
{
    let mut count = 0;
    for row in 0..books.rows() {
        count += push_row(text, books, desk, row)?;
    }
    Ok(count)
}

// The lines of the rows of a group of blocks that are set in some marks of them. The group begins with this block. The
// marks of a block that isn't marked aren't to be taken.
fn push_group(
    text: &mut Vec<u8>,
    books: &Books,
    desk: &mut Desk,
    start: u32,
    marked: u64,
) -> Result<u64, AllocError>
    requires own { IsOf books.now desk.old }
    requires start { start ≤ mark_blocks books.now.layout.rows }
    ensures own { IsOf books.now desk.new }
    ensures lines { IfOk result (λ count. AddsStepsBy (WritesBlocks books.now.layout.rows
        (range_with_len start (min (start + group_blocks) (mark_blocks books.now.layout.rows) - start))
        text.old.items text.new.items count) desk.old desk.new) }
    ensures looks { AddsStepsBy AllLooks desk.old desk.new }
    ensures holds { KeepsHolds desk.old desk.new }
    ensures endings { KeepsEndings desk.old desk.new }
{
    let mut count = 0;
    if marked == 0 {
        return Ok(count);
    }
    for block in start..end_of_block(start, block_count(books)) {
        let is_marked = marked >> (block % GROUP_BLOCKS) & 1 == 1;
        count += push_block_if_marked(text, books, desk, block, is_marked)?;
    }
    Ok(count)
}

// The lines of the rows of a block that are set in some marks of it. They are to be those that are taken, if it is
// marked.
fn push_block_if_marked(
    text: &mut Vec<u8>,
    books: &Books,
    desk: &mut Desk,
    block: u32,
    is_marked: bool,
) -> Result<u64, AllocError>
    requires own { IsOf books.now desk.old }
    requires most { books.now.layout.rows ≤ most_rows }
    requires block { block < mark_blocks books.now.layout.rows }
    ensures own { IsOf books.now desk.new }
    ensures lines { IfOk result (λ count. AddsStepsBy (WritesBlocks books.now.layout.rows (block ∷ [])
        text.old.items text.new.items count) desk.old desk.new) }
    ensures looks { AddsStepsBy AllLooks desk.old desk.new }
    ensures holds { KeepsHolds desk.old desk.new }
    ensures endings { KeepsEndings desk.old desk.new }
{
    if !is_marked {
        return Ok(0);
    }
    let marks = books.take_marks(block);
    push_block(text, books, desk, BLOCK_ROWS * block, marks)
}

// The lines of the marked rows of a block, which begins with this row.
fn push_block(
    text: &mut Vec<u8>,
    books: &Books,
    desk: &mut Desk,
    start: u32,
    marks: u64,
) -> Result<u64, AllocError>
    requires own { IsOf books.now desk.old }
    requires start { start ≤ books.now.layout.rows }
    ensures own { IsOf books.now desk.new }
    ensures lines { IfOk result (λ count. AddsStepsBy (WritesLines
        (filter (is_set marks) (range_with_len start (min (start + block_rows) books.now.layout.rows - start)))
        text.old.items text.new.items count) desk.old desk.new) }
    ensures looks { AddsStepsBy AllLooks desk.old desk.new }
    ensures holds { KeepsHolds desk.old desk.new }
    ensures endings { KeepsEndings desk.old desk.new }
{
    let mut count = 0;
    if marks == 0 {
        return Ok(count);
    }
    for row in start..end_of_block(start, books.rows()) {
        let marked = marks >> (row % BLOCK_ROWS) & 1 == 1;
        count += push_if_marked(text, books, desk, row, marked)?;
    }
    Ok(count)
}

// Where the block that begins with this row ends, or the group that begins with this block. Both have as many.
fn end_of_block(start: u32, count: u32) -> u32
    requires { start ≤ count }
    ensures { result ≡ min (start + block_rows) count }
{
    if count - start < BLOCK_ROWS {
        count
    } else {
        start + BLOCK_ROWS
    }
}

// The line of a row, if it is marked and has one, and the count of these lines.
fn push_if_marked(
    text: &mut Vec<u8>,
    books: &Books,
    desk: &mut Desk,
    row: u32,
    marked: bool,
) -> Result<u64, AllocError>
    requires own { IsOf books.now desk.old }
    requires row { row < books.now.layout.rows }
    ensures own { IsOf books.now desk.new }
    ensures lines { IfOk result (λ count. AddsStepsBy (WritesLines (cond marked (row ∷ []) [])
        text.old.items text.new.items count) desk.old desk.new) }
    ensures looks { AddsStepsBy AllLooks desk.old desk.new }
    ensures holds { KeepsHolds desk.old desk.new }
    ensures endings { KeepsEndings desk.old desk.new }
{
    if !marked {
        return Ok(0);
    }
    push_row(text, books, desk, row)
}
