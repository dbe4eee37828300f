//! Books in the making from the lines of an export.
ghost use Rattle.std.specs.Prelude.{◌≡◌, ◌<◌, ◌↔◌, ◌≤◌, ◌++◌, [], ℕ, List, All, Any, IfNone, IfOk, IfSome, IsSomeAnd, IsTrue, OnOk, length, true};
ghost use Rattle.leg_masks.specs.Interval.{most_legs, most_places};
ghost use Rattle.rail_ids.specs.Spelling.{last_generation};
ghost use Rattle.history_model.specs.Allowed.{IsAmountOf};
ghost use Rattle.arrayvec.specs.ArrayVec.{array_vec_len};
ghost use Rattle.history_model.specs.Booking.{amount_word, most_items, most_rows, row_words};
ghost use Rattle.history_model.specs.Phase.{is_live as is_live_phase};
ghost use Rattle.history_model.specs.declared.phase.EndKind.{EndKind};
ghost use Rattle.history_model.specs.declared.phase.Phase.TheVariants.{Ended};
ghost use Rattle.cold_store.specs.Drafts.{AddsLine, AreRisingRows, EachDraft, HasLineOf, IsBeforeWrong, IsDraftOf, IsLeastOwn, IsNextRow, IsPlaceOf, IsRightLine, IsRowOf, MayAdd, MeetsItem, NoneMeet, drafted_successor, end_words_of, least_of, noted, took, with_line, with_taken, with_words, words_of_line};
ghost use Rattle.cold_store.specs.Right.{AreRight, IsEndIn, IsFirstWrong, IsHeadRight, OwnsSuccessor};

use crate::bookings::Line;
use crate::wall_rows::is_live;
use arrayvec::ArrayVec;
use history_model::booking::{GREATEST_AMOUNT, GREATEST_RETAILER, LAST_MOMENT, ROW_WORDS};
use history_model::phase::{EndKind, Phase, amount_word_of, row_word_of};
use history_model::successor::successor_word;
use leg_masks::{HALVES, Item, half_of, mask_of, write_item};
use line_text::{Head, SaidEnd, SaidRow};
use rail_ids::{LAST_GENERATION, RowNo};
use std::alloc::{AllocError, Global};
use std::cmp::min;
use std::marker::Model;

/// The greatest amount paid back, in minor units.
const GREATEST_REFUND: i64 = GREATEST_AMOUNT as i64;
/// The least difference of an exchange.
const LEAST_DIFFERENCE: i64 = -GREATEST_REFUND;
/// The greatest difference of an exchange: the greatest total and the greatest fee.
const GREATEST_DIFFERENCE: i64 = 100_009_999_999;

/// The first words of a row.
type RowWords = ArrayVec<u64, ROW_WORDS>;

/// The successor that the line of a row says.
#[derive(Clone, Copy)]
pub struct Follows {
    pub row: u64,
    pub successor: SaidRow,
}

/// What the lines so far come to. It has the words of the books, as long as no line was wrong, and which rows have a
/// line, and which a successor. It also has the row of the first line that is wrong by itself, and the least place
/// where live bookings overlap.
#[derive(Drop)]
pub(crate) struct Draft {
    pub(crate) places: u32,
    pub(crate) rows: u32,
    pub(crate) words: Vec<u64>,
    pub(crate) lines: Vec<SaidRow>,
    pub(crate) follows: Vec<Follows>,
    pub(crate) wrong: Option<u64>,
    pub(crate) overlap: Option<u32>,
}

impl Model for Draft {
    ghost use Rattle.cold_store.specs.Drafts.{DraftView};

    ghost Value = { DraftView };

    ghost view = { λ d. record {
      places = d.places;
      rows = d.rows;
      words = d.words.items;
      lines = d.lines.items;
      follows = d.follows.items;
      wrong = d.wrong;
      overlap = d.overlap;
    } };
}

// Whether the amount is one of an end of this kind.
fn is_amount_of(kind: EndKind, amount: i64) -> bool
    ensures { IsTrue result ↔ IsAmountOf kind amount }
{
    match kind {
        EndKind::Release | EndKind::Expire => amount == 0,
        EndKind::Refund => 0 <= amount && amount <= GREATEST_REFUND,
        EndKind::Exchange => LEAST_DIFFERENCE <= amount && amount <= GREATEST_DIFFERENCE,
    }
}

// Whether the end lies in the ranges of a turn, where the booking has this limit.
fn is_end_right(kind: EndKind, limit: u64, end: SaidEnd) -> bool
    ensures { IsTrue result ↔ IsEndIn kind limit end }
{
    let Ok(amount) = i64::try_from(end.amount) else {
        return false;
    };
    if end.moment > LAST_MOMENT || !is_amount_of(kind, amount) {
        return false;
    }
    if end.successor.is_some() != (kind == EndKind::Exchange) {
        return false;
    }
    kind != EndKind::Expire || limit < end.moment
}

// Whether the numbers before the items are a sealed booking's in that many rows.
fn is_head_right(head: &Head, rows: u32) -> bool
    ensures { IsTrue result ↔ IsHeadRight rows head.now }
{
    head.row < u64::from(rows)
        && head.generation <= u64::from(LAST_GENERATION)
        && head.retailer <= GREATEST_RETAILER
        && head.limit <= LAST_MOMENT
        && head.total <= GREATEST_AMOUNT
}

// Whether the item meets one of these.
fn meets_one(item: Item, others: &[Item]) -> bool
    ensures { IsTrue result ↔ Any (MeetsItem item) others.now }
{
    others.iter().any(|other| other.place() == item.place() && other.span().meets(item.span()))
}

// Whether no two of the items meet.
fn none_meet(items: &[Item]) -> bool
    ensures { IsTrue result ↔ NoneMeet items.now }
{
    let mut rest = items;
    while let Some((first, more)) = rest.split_first() {
        if meets_one(*first, more) {
            return false;
        }
        rest = more;
    }
    true
}

// Whether the line is right but for the line of its successor.
fn is_line_right(line: &Line, rows: u32) -> bool
    ensures { IsTrue result ↔ IsRightLine rows line.now }
{
    let Some(items) = &line.items else {
        return false;
    };
    if items.is_empty() || !none_meet(items.as_slice()) || !is_head_right(&line.head, rows) {
        return false;
    }
    match line.head.phase {
        Phase::Ended(kind) => is_end_right(kind, line.head.limit, line.end),
        _ => true,
    }
}

// The word of a successor. One that a row can't be has none: it has no line, or a line that is wrong.
fn word_of_successor(successor: Option<SaidRow>) -> u64
    ensures { result ≡ drafted_successor successor }
{
    let Some(said) = successor else {
        return 0;
    };
    if said.generation > u64::from(LAST_GENERATION) {
        return 0;
    }
    match u32::try_from(said.row) {
        Ok(row) => successor_word(RowNo {
            row,
            generation: said.generation as u32,
        }),
        Err(_) => 0,
    }
}

// Whether the row is less than the first wrong one.
fn is_before(row: u64, wrong: Option<u64>) -> bool
    ensures { IsTrue result ↔ IsBeforeWrong wrong row }
{
    match wrong {
        Some(wrong) => row < wrong,
        None => true,
    }
}

// The lesser of the places.
fn least_place(overlap: Option<u32>, place: u32) -> u32
    ensures { result ≡ least_of overlap place }
{
    match overlap {
        Some(other) => min(other, place),
        None => place,
    }
}

// The word of an amount, where an end of this kind may have it.
fn word_of_amount(kind: EndKind, amount: i128) -> u64
    ensures { IsAmountOf kind amount → result ≡ amount_word kind amount }
{
    match i64::try_from(amount) {
        Ok(amount) => amount_word_of(kind, amount),
        Err(_) => 0,
    }
}

// Adds the words 5 to 7 of a line.
fn push_end(words: &mut RowWords, phase: Phase, end: SaidEnd)
    requires room { array_vec_len words.old ≤ 5 }
    requires amount { (kind : EndKind) → phase ≡ Ended kind → IsAmountOf kind end.amount }
    ensures { words.new.items ≡ words.old.items ++ end_words_of phase end }
{
    match phase {
        Phase::Ended(kind) => {
            words.push(word_of_successor(end.successor));
            words.push(word_of_amount(kind, end.amount));
            words.push(end.moment);
        }
        _ => {
            words.push(0);
            words.push(0);
            words.push(0);
        }
    }
}

// The words of a line, without the zeros after those of its items.
fn words_of(head: &Head, end: SaidEnd, items: &[Item]) -> RowWords
    requires generation { head.now.generation ≤ last_generation }
    requires amount { (kind : EndKind) → head.now.phase ≡ Ended kind → IsAmountOf kind end.amount }
    requires few { length items.now ≤ most_items }
    ensures { result.items ≡ words_of_line head.now end items.now }
{
    let mut words = RowWords::new();
    words.push(row_word_of(head.phase, head.generation as u32));
    words.push(head.retailer);
    words.push(head.limit);
    words.push(head.total);
    words.push(head.count);
    push_end(&mut words, head.phase, end);
    for item in items {
        words.push(write_item(*item));
    }
    words
}

impl Draft {
    /// Books with that many places and rows, all free.
    pub(crate) fn new(alloc: Global, places: u32, rows: u32) -> Result<Draft, AllocError>
        requires places { places ≤ most_places }
        requires rows { rows ≤ most_rows }
        ensures { IfOk result (λ d. (legs : List ℕ) → length legs ≡ places → IsDraftOf legs rows [] d) }
    {
        let count = HALVES as usize * places as usize + ROW_WORDS * rows as usize;
        Ok(Draft {
            places,
            rows,
            words: Vec::from_elem(alloc, 0u64, count)?,
            lines: Vec::new(alloc),
            follows: Vec::new(alloc),
            wrong: None,
            overlap: None,
        })
    }

    // Writes the first words of a row.
    fn write(&mut self, row: u64, words: &[u64])
        requires row { IsRowOf self.old row }
        requires few { length words.now ≤ row_words }
        ensures { self.new ≡ with_words self.old row words.now }
    {
        let first = HALVES as usize * self.places as usize + ROW_WORDS * row as usize;
        for k in 0..words.len() {
            self.words[first + k] = words[k];
        }
    }

    // Takes an item for a live booking.
    fn take(&mut self, item: Item)
        requires place { IsPlaceOf self.old item.place }
        ensures draft { self.new ≡ took self.old item }
        ensures span { item.span.to ≤ most_legs }
    {
        let at = HALVES as usize * item.place() as usize + half_of(item.span()) as usize;
        let mask = mask_of(item.span());
        if self.words[at] & mask != 0 {
            self.overlap = Some(least_place(self.overlap, item.place()));
        }
        self.words[at] |= mask;
    }

    // Takes the items of a live booking.
    fn take_all(&mut self, items: &[Item])
        requires places { All (λ i. IsPlaceOf self.old i.place) items.now }
        ensures draft { self.new ≡ with_taken self.old items.now }
        ensures spans { All (λ i. i.span.to ≤ most_legs) items.now }
    {
        for k in 0..items.len() {
            self.take(items[k]);
        }
    }

    // Writes the words of a line that is right.
    fn set_line(&mut self, line: &Line)
        requires right { IsRightLine self.old.rows line.now }
        requires row { IsRowOf self.old line.now.head.row }
        requires places { IfSome line.now.items (All (λ i. IsPlaceOf self.old i.place)) }
        ensures draft { self.new ≡ with_line self.old line.now }
        ensures spans { is_live_phase line.now.head.phase ≡ true
            → IsSomeAnd line.now.items (All (λ i. i.span.to ≤ most_legs)) }
    {
        if let Some(items) = &line.items {
            let words = words_of(&line.head, line.end, items.as_slice());
            self.write(line.head.row, words.as_slice());
            if is_live(line.head.phase) {
                self.take_all(items.as_slice());
            }
        }
    }

    // Remembers which row the line is of, and its successor's.
    fn note(&mut self, line: &Line) -> Result<(), AllocError>
        ensures { OnOk result (self.new ≡ noted self.old line.now) }
    {
        self.lines.push(SaidRow {
            row: line.head.row,
            generation: line.head.generation,
        })?;
        if let Some(successor) = line.end.successor {
            self.follows.push(Follows {
                row: line.head.row,
                successor,
            })?;
        }
        Ok(())
    }

    /// The next line, of a greater row than all before.
    pub(crate) fn add(&mut self, line: &Line) -> Result<(), AllocError>
        requires draft { MayAdd self.old line.now }
        ensures { OnOk result (AddsLine self.old line.now self.new) }
    {
        self.note(line)?;
        if self.wrong.is_some() {
            return Ok(());
        }
        if is_line_right(line, self.rows) {
            self.set_line(line);
        } else {
            self.wrong = Some(line.head.row);
        }
        Ok(())
    }

    /// Whether the row is greater than all before.
    pub(crate) fn is_next(&self, row: u64) -> bool
        ensures { IsTrue result ↔ IsNextRow self.now.lines row }
    {
        match self.lines.as_slice().last() {
            Some(last) => last.row < row,
            None => true,
        }
    }

    // Whether the successor's row has a line, of no lower generation.
    fn has_line(&self, successor: SaidRow) -> bool
        requires rising { AreRisingRows self.now.lines }
        ensures { IsTrue result ↔ HasLineOf self.now.lines successor }
    {
        let lines = self.lines.as_slice();
        match lines.binary_search_by_key(&successor.row, |line| line.row) {
            Ok(at) => lines[at].generation >= successor.generation,
            Err(_) => false,
        }
    }

    /// The row of the first line that is wrong, once all are added.
    pub(crate) fn first_wrong(&self) -> Option<u64>
        requires rising { AreRisingRows self.now.lines }
        ensures some { IfSome result (λ row. EachDraft self.now (λ l said. IsFirstWrong l self.now.rows said row)) }
        ensures none { IfNone result (EachDraft self.now (λ l said. AreRight l self.now.rows said said)) }
    {
        let follows = self.follows.as_slice();
        for k in 0..follows.len() {
            if !is_before(follows[k].row, self.wrong) {
                return self.wrong;
            }
            if !self.has_line(follows[k].successor) {
                return Some(follows[k].row);
            }
        }
        self.wrong
    }

    /// The least row that is its own successor's.
    pub(crate) fn own_successor(&self) -> Option<u64>
        ensures some { IfSome result (λ row. EachDraft self.now (λ _ said. IsLeastOwn said row)) }
        ensures none { IfNone result (EachDraft self.now (λ _ said. (row : ℕ) → ¬ OwnsSuccessor said row)) }
    {
        let follows = self.follows.as_slice();
        for k in 0..follows.len() {
            if follows[k].successor.row == follows[k].row {
                return Some(follows[k].row);
            }
        }
        None
    }
}
