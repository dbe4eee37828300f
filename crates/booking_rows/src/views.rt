//! Reading a row: its phase first, the words of a sealed one after it, and its phase again.
ghost use Rattle.std.specs.Prelude.{ℕ, ◌≡◌, ◌≤◌, ◌<◌, ◌+◌, true, length, map, min, option_map, IfSome};
ghost use Rattle.std.specs.List.{AllByRecursion};
ghost use Rattle.leg_masks.specs.Interval.{item_word};
ghost use Rattle.history_model.specs.declared.phase.EndKind.TheVariants.{Exchange};
ghost use Rattle.history_model.specs.Booking.{most_items, first_item_word, amount_word, greatest_amount, greatest_retailer, last_moment, end_successor_word};
ghost use Rattle.history_model.specs.Phase.{is_sealed as is_sealed_phase};
ghost use Rattle.rail_ids.specs.Spelling.{last_generation};
ghost use Rattle.claim_rule.specs.Desks.{IsOf, AddsSteps, AddsAtMost};
ghost use Rattle.claim_rule.specs.Calls.{AddsStepsBy};
ghost use Rattle.claim_rule.specs.Out.{KeepsHolds, KeepsEndings};
ghost use Rattle.booking_rows.specs.Views.{LooksRow, IsSeen, HasWord, saw_end, saw_words, has_end, other_looks, said_amount, HasSaidAmount};
ghost use Rattle.booking_rows.specs.Views.{AreRead, end_words, word_looks, words_read};
ghost use Rattle.booking_rows.specs.Ends.{shown_end};
ghost use Rattle.booking_rows.specs.SealedRows.{FitWords, IsSealedRow, IsSealedSince, IsStillPresent, HasItems};
ghost use Rattle.booking_rows.specs.SealedRows.{AreOfOne, IsEndOf, IsAmountWord, IsItemWord};

use arrayvec::ArrayVec;
use claim_rule::{Books, Desk, item_of};
use history_model::booking::{
    COUNT_WORD, END_AMOUNT_WORD, END_MOMENT_WORD, END_SUCCESSOR_WORD, FIRST_ITEM_WORD, LIMIT_WORD,
    MOST_ITEMS, RETAILER_WORD, STANDING_WORD, TOTAL_WORD,
};
use history_model::phase::{EndKind, Phase, phase_shown};
use history_model::successor::successor_of;
use leg_masks::Item;
use rail_ids::{RetailerNo, RowNo};
use rail_time::Moment;
use std::marker::Model;

/// How a booking ended: its amount in minor units, when, and its successor. Of a refund the amount is what was paid
/// back, of an exchange what the new booking cost more, and else 0.
#[derive(Clone, Copy, Debug, PartialEq, Eq)]
pub struct EndView {
    pub amount: i64,
    pub moment: Moment,
    pub successor: Option<RowNo>,
}

/// A sealed row as its words showed it. `ended` is there exactly where its phase word showed that it is ended.
#[derive(Drop)]
pub struct RowView {
    pub phase: Phase,
    pub retailer: RetailerNo,
    pub limit: Moment,
    pub total: u64,
    pub items: ArrayVec<Item, MOST_ITEMS>,
    pub ended: Option<EndView>,
}

impl Model for RowView {
    ghost use Rattle.std.specs.Prelude.{option_map};
    ghost use Rattle.booking_rows.specs.Views.{RowSeen};
    ghost use Rattle.booking_rows.specs.Ends.{shown_end};

    ghost Value = { RowSeen };

    ghost view = { λ v. record {
      phase = v.phase;
      retailer = v.retailer.0;
      limit = v.limit;
      total = v.total;
      items = v.items.items;
      ended = option_map shown_end v.ended;
    } };
}

/// Looks at a booking: word 0 of its row, of a sealed one its other words after it, and word 0 again.
///
/// `None` exactly where the first look showed it free or in the making, or the last one free: its row was given away
/// meanwhile, and the words read between are no one's. `ended` is there exactly where the first look showed it ended.
pub fn look_row(books: &Books, desk: &mut Desk, row: RowNo) -> Option<RowView>
    requires own { IsOf books.now desk.old }
    requires row { row.row < books.now.layout.rows }
    ensures own { IsOf books.now desk.new }
    ensures entries { AddsStepsBy (LooksRow row result) desk.old desk.new }
    ensures sealed { IfSome result (λ view. IsSealedSince desk.new row view.phase) }
    ensures generation { IfSome result (λ _. row.generation ≤ last_generation) }
    ensures total { IfSome result (λ view. view.total ≤ greatest_amount) }
    ensures holds { KeepsHolds desk.old desk.new }
    ensures endings { KeepsEndings desk.old desk.new }
    ensures bound { AddsAtMost (most_items + other_looks) desk.old desk.new }
{
    let _ = books.places();
    let phase = phase_shown(books.step_read(desk, row, STANDING_WORD), row.generation);
    if !is_sealed(phase) {
        return None;
    }
    let words = read_words(books, desk, row, phase);
    let last = phase_shown(books.step_read(desk, row, STANDING_WORD), row.generation);
    if let Phase::Free = last {
        return None;
    }
    Some(view_of(words))
}

// Whether a booking in this phase is neither free nor in the making.
fn is_sealed(phase: Phase) -> bool
    ensures sealed { result ≡ is_sealed_phase phase }
{
    !matches!(phase, Phase::Free | Phase::Making)
}

// The words that the looks at a row showed, before it is known whose they are.
#[derive(Drop)]
struct RowWords {
    phase: Phase,
    retailer: u64,
    limit: u64,
    total: u64,
    count: u64,
    items: ArrayVec<u64, MOST_ITEMS>,
    end: ArrayVec<u64, 3>,
}

impl Model for RowWords {
    ghost use Rattle.booking_rows.specs.Views.{RowWords as RowWordsView};

    ghost Value = { RowWordsView };

    ghost view = { λ w. record {
      phase = w.phase;
      retailer = w.retailer;
      limit = w.limit;
      total = w.total;
      count = w.count;
      items = w.items.items;
      end = w.end.items;
    } };
}

// Reads the words of a row that showed the booking sealed, in this phase.
fn read_words(books: &Books, desk: &mut Desk, row: RowNo, phase: Phase) -> RowWords
    requires own { IsOf books.now desk.old }
    requires row { row.row < books.now.layout.rows }
    requires fit { FitWords books.now.layout }
    requires phase { is_sealed_phase phase ≡ true }
    requires sealed { IsSealedSince desk.old row phase }
    ensures own { IsOf books.now desk.new }
    ensures phase { result.phase ≡ phase }
    ensures read { AreRead result }
    ensures entries { AddsSteps desk.old desk.new (words_read row.row result) }
    ensures fit { IsStillPresent desk.new row → AreOfOne result }
    ensures sealed { IsSealedSince desk.new row phase }
    ensures kept { desk.new.kept ≡ desk.old.kept }
{
    let retailer = books.step_read(desk, row, RETAILER_WORD);
    let limit = books.step_read(desk, row, LIMIT_WORD);
    let total = books.step_read(desk, row, TOTAL_WORD);
    let count = books.step_read(desk, row, COUNT_WORD);
    let items = read_item_words(books, desk, row, count);
    let end = read_end(books, desk, row, phase);
    RowWords {
        phase,
        retailer,
        limit,
        total,
        count,
        items,
        end,
    }
}

// Reads the words of that many items, and of no more than a booking may have.
fn read_item_words(
    books: &Books,
    desk: &mut Desk,
    row: RowNo,
    count: u64,
) -> ArrayVec<u64, MOST_ITEMS>
    requires own { IsOf books.now desk.old }
    requires row { row.row < books.now.layout.rows }
    requires fit { FitWords books.now.layout }
    requires sealed { IsSealedRow desk.old row }
    requires count { IsStillPresent desk.old row → HasItems desk.old row count }
    ensures own { IsOf books.now desk.new }
    ensures many { length result.items ≡ min count most_items }
    ensures entries { AddsSteps desk.old desk.new (word_looks row.row first_item_word result.items) }
    ensures words { IsStillPresent desk.new row → AllByRecursion IsItemWord result.items }
    ensures kept { desk.new.kept ≡ desk.old.kept }
{
    let mut items = ArrayVec::new();
    for i in 0..at_most_items(count) {
        items.push(books.step_read(desk, row, FIRST_ITEM_WORD as u8 + i));
    }
    items
}

// The number, or the most items that a booking may have where it is above.
fn at_most_items(count: u64) -> u8
    ensures least { result ≡ min count most_items }
{
    if count < MOST_ITEMS as u64 {
        count as u8
    } else {
        MOST_ITEMS as u8
    }
}

// Reads the end words, where the phase shown is an ended one.
fn read_end(books: &Books, desk: &mut Desk, row: RowNo, phase: Phase) -> ArrayVec<u64, 3>
    requires own { IsOf books.now desk.old }
    requires row { row.row < books.now.layout.rows }
    requires sealed { IsSealedSince desk.old row phase }
    ensures own { IsOf books.now desk.new }
    ensures many { length result.items ≡ end_words phase }
    ensures entries { AddsSteps desk.old desk.new (word_looks row.row end_successor_word result.items) }
    ensures words { IsStillPresent desk.new row → IsEndOf phase result.items }
    ensures kept { desk.new.kept ≡ desk.old.kept }
{
    let _ = books.rows();
    let mut end = ArrayVec::new();
    if let Phase::Ended(_) = phase {
        end.push(books.step_read(desk, row, END_SUCCESSOR_WORD));
        end.push(books.step_read(desk, row, END_AMOUNT_WORD));
        end.push(books.step_read(desk, row, END_MOMENT_WORD));
    }
    end
}

// What the words say, where they are those of one sealed booking.
fn view_of(words: RowWords) -> RowView
    requires read { AreRead words }
    requires fit { AreOfOne words }
    ensures seen { IsSeen result }
    ensures phase { result.phase ≡ words.phase }
    ensures total { result.total ≤ greatest_amount }
    ensures entries { (row : ℕ) → saw_words row result ≡ words_read row words }
{
    let RowWords {
        phase,
        retailer,
        limit,
        total,
        count: _,
        items,
        end,
    } = words;
    RowView {
        phase,
        retailer: retailer_of(retailer),
        limit: moment_of(limit),
        total,
        items: items_of(items.as_slice()),
        ended: end_of(phase, end.as_slice()),
    }
}

// The items of words that are items'.
fn items_of(words: &[u64]) -> ArrayVec<Item, MOST_ITEMS>
    requires few { length words.now ≤ most_items }
    requires items { AllByRecursion IsItemWord words.now }
    ensures words { map (λ i. item_word i.place i.span) result.items ≡ words.now }
    ensures each { AllByRecursion HasWord result.items }
{
    let mut items = ArrayVec::new();
    for word in words {
        items.push(item_of(*word));
    }
    items
}

// The end of end words, where the phase is an ended one.
fn end_of(phase: Phase, words: &[u64]) -> Option<EndView>
    requires many { length words.now ≡ end_words phase }
    requires end { IsEndOf phase words.now }
    ensures there { has_end phase (option_map shown_end result) ≡ true }
    ensures said { HasSaidAmount phase (option_map shown_end result) }
    ensures looks { (row : ℕ) → saw_end row phase (option_map shown_end result)
        ≡ word_looks row end_successor_word words.now }
{
    match phase {
        Phase::Ended(kind) => Some(EndView {
            amount: amount_of(kind, words[1]),
            moment: moment_of(words[2]),
            successor: successor_of(words[0]),
        }),
        _ => None,
    }
}

// The retailer of a word.
fn retailer_of(word: u64) -> RetailerNo
    requires small { word ≤ greatest_retailer }
    ensures number { result.0 ≡ word }
{
    RetailerNo(word as u32)
}

// The moment of a word.
fn moment_of(word: u64) -> Moment
    requires small { word ≤ last_moment }
    ensures moment { result ≡ word }
{
    match Moment::of(word) {
        Some(moment) => moment,
        None => unreachable!(),
    }
}

// The amount of an end, by its word.
fn amount_of(kind: EndKind, word: u64) -> i64
    requires amount { IsAmountWord kind word }
    ensures word { amount_word kind result ≡ word }
    ensures value { result ≡ said_amount kind word }
{
    match kind {
        EndKind::Release => 0,
        EndKind::Expire => 0,
        EndKind::Refund => word as i64,
        EndKind::Exchange => difference_of(word),
    }
}

// The difference of an exchange, by its word: twice it, or twice its size less 1 where it is negative.
fn difference_of(word: u64) -> i64
    ensures word { amount_word Exchange result ≡ word }
    ensures value { result ≡ said_amount Exchange word }
{
    let half = (word / 2) as i64;
    if word % 2 == 0 { half } else { -half - 1 }
}
