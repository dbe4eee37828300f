//! What a closed wall shows of its rows and places.
ghost use Rattle.std.specs.Prelude.{◌≡◌, ◌≢◌, ◌↔◌, ◌<◌, ◌≤◌, ◌+◌, IfNone, IfOk, IfSome, IsTrue, length};
ghost use Rattle.leg_masks.specs.Interval.{halves};
ghost use Rattle.history_model.specs.Allowed.{OnRow};
ghost use Rattle.history_model.specs.Booking.{phase_of_row, row_words};
ghost use Rattle.history_model.specs.Phase.{is_live as is_live_phase};
ghost use Rattle.history_model.specs.Words.{place_number, row_word};
ghost use Rattle.history_model.specs.declared.phase.Phase.TheVariants.{Ended, Free};
ghost use Rattle.history_model.specs.declared.phase.EndKind.TheVariants.{Exchange};
ghost use Rattle.cold_store.specs.Exports.{AreLiveWords, HasItem, IsClosed, IsHeldHalf, IsHeldPlace, IsItemAt, IsLeastBelow, IsOpenRow, IsUnmade, NoneHeld, NoneOpen, state_on, with_item};

use claim_rule::Wall;
use history_model::booking::{COUNT_WORD, END_SUCCESSOR_WORD, FIRST_ITEM_WORD, STANDING_WORD};
use history_model::phase::{EndKind, Phase, read_row_word, row_word_of};
use history_model::successor::successor_of;
use leg_masks::{HALVES, Item, half_of, mask_of, read_item};
use rail_ids::{PlaceNo, RowNo};
use std::alloc::{AllocError, Global};

/// A word of a row.
pub(crate) fn word_at(wall: &Wall, row: u32, word: u8) -> u64
    requires closed { IsClosed wall.now }
    requires row { (row < wall.now.layout.rows) × (word < row_words) }
    ensures { result ≡ row_word (state_on wall.now) row word }
{
    match wall.row_word(row, word) {
        Some(word) => word,
        None => unreachable!(),
    }
}

/// The phase of a row, and where it isn't free the generation of its present booking.
pub(crate) fn shown_at(wall: &Wall, row: u32) -> (Phase, u32)
    requires closed { IsClosed wall.now }
    requires row { row < wall.now.layout.rows }
    ensures phase { result.0 ≡ phase_of_row (state_on wall.now) row }
    ensures generation { result.0 ≢ Free → OnRow (state_on wall.now) row (λ b. b.generation ≡ result.1) }
{
    match read_row_word(word_at(wall, row, STANDING_WORD)) {
        Some(shown) => shown,
        None => unreachable!(),
    }
}

/// Whether the booking of a row lives.
pub(crate) fn is_live(phase: Phase) -> bool
    ensures { result ≡ is_live_phase phase }
{
    matches!(
        phase,
        Phase::Prebooked | Phase::Confirmed | Phase::Fulfilled
    )
}

/// The item at this place among those of a row's booking, which is sealed. They are as many as word 4 says.
pub(crate) fn item_at(wall: &Wall, row: u32, item: u8) -> Item
    requires closed { IsClosed wall.now }
    requires row { row < wall.now.layout.rows }
    requires item { HasItem wall.now row item }
    ensures { IsItemAt wall.now row item result }
{
    match read_item(word_at(wall, row, FIRST_ITEM_WORD as u8 + item)) {
        Some(item) => item,
        None => unreachable!(),
    }
}

// Whether the row is free, or its booking of this generation is in the making.
fn is_unmade(wall: &Wall, row: RowNo) -> bool
    requires closed { IsClosed wall.now }
    ensures { IsTrue result ↔ IsUnmade (state_on wall.now) row.row row.generation }
{
    match wall.row_word(row.row, STANDING_WORD) {
        Some(word) => word == 0 || word == row_word_of(Phase::Making, row.generation),
        None => true,
    }
}

// Whether the booking of a row that was exchanged has a successor that isn't made yet.
fn is_left_open(wall: &Wall, row: u32) -> bool
    requires closed { IsClosed wall.now }
    requires row { row < wall.now.layout.rows }
    requires exchanged { Ended Exchange ≡ phase_of_row (state_on wall.now) row }
    ensures { IsTrue result ↔ IsOpenRow (state_on wall.now) row }
{
    match successor_of(word_at(wall, row, END_SUCCESSOR_WORD)) {
        Some(successor) => is_unmade(wall, successor),
        None => false,
    }
}

// Whether the row is ending, or exchanged for a booking that isn't made yet.
fn is_open(wall: &Wall, row: u32) -> bool
    requires closed { IsClosed wall.now }
    requires row { row < wall.now.layout.rows }
    ensures { IsTrue result ↔ IsOpenRow (state_on wall.now) row }
{
    match shown_at(wall, row).0 {
        Phase::Ending(_) => true,
        Phase::Ended(EndKind::Exchange) => is_left_open(wall, row),
        _ => false,
    }
}

/// The least row that is open.
pub(crate) fn first_open(wall: &Wall) -> Option<u32>
    requires closed { IsClosed wall.now }
    ensures some { IfSome result (IsLeastBelow wall.now.layout.rows (IsOpenRow (state_on wall.now))) }
    ensures none { IfNone result (NoneOpen wall.now) }
{
    for row in 0..wall.rows() {
        if is_open(wall, row) {
            return Some(row);
        }
    }
    None
}

// Adds the legs of an item to the word of its half.
fn add_item(words: &mut [u64], item: Item)
    requires place { place_number item.place 2 ≤ length words.old }
    ensures { words.new ≡ with_item item words.old }
{
    let at = HALVES as usize * item.place() as usize + half_of(item.span()) as usize;
    words[at] |= mask_of(item.span());
}

// Adds the legs of the row's items, where its booking lives.
fn add_live(wall: &Wall, row: u32, words: &mut [u64])
    requires closed { IsClosed wall.now }
    requires row { row < wall.now.layout.rows }
    requires words { AreLiveWords wall.now row words.old }
    ensures { AreLiveWords wall.now (row + 1) words.new }
{
    if !is_live(shown_at(wall, row).0) {
        return;
    }
    for k in 0..word_at(wall, row, COUNT_WORD) as u8 {
        add_item(words, item_at(wall, row, k));
    }
}

/// What the words of the places are by live bookings alone.
pub(crate) fn live_words(alloc: Global, wall: &Wall) -> Result<Vec<u64>, AllocError>
    requires closed { IsClosed wall.now }
    ensures { IfOk result (λ words. AreLiveWords wall.now wall.now.layout.rows words.items) }
{
    let mut words = Vec::from_elem(alloc, 0u64, HALVES as usize * wall.places() as usize)?;
    for row in 0..wall.rows() {
        add_live(wall, row, words.as_mut_slice());
    }
    Ok(words)
}

// Whether a half of the place has another word than this by live bookings.
fn is_held_in(wall: &Wall, place: u32, half: u8, words: &[u64]) -> bool
    requires closed { IsClosed wall.now }
    requires half { (place < length wall.now.layout.legs) × (half < halves) }
    requires words { AreLiveWords wall.now wall.now.layout.rows words.now }
    ensures { IsTrue result ↔ IsHeldHalf (state_on wall.now) place half }
{
    let at = HALVES as usize * place as usize + half as usize;
    match wall.place_word(PlaceNo(place), half) {
        Some(word) => word != words[at],
        None => unreachable!(),
    }
}

// Whether some half of the place has another word than by live bookings.
fn is_held(wall: &Wall, place: u32, words: &[u64]) -> bool
    requires closed { IsClosed wall.now }
    requires place { place < length wall.now.layout.legs }
    requires words { AreLiveWords wall.now wall.now.layout.rows words.now }
    ensures { IsTrue result ↔ IsHeldPlace (state_on wall.now) place }
{
    for half in 0..HALVES {
        if is_held_in(wall, place, half, words) {
            return true;
        }
    }
    false
}

/// The least place that isn't taken just by live bookings, whose words these are.
pub(crate) fn first_held(wall: &Wall, words: &[u64]) -> Option<u32>
    requires closed { IsClosed wall.now }
    requires words { AreLiveWords wall.now wall.now.layout.rows words.now }
    ensures some { IfSome result (IsLeastBelow (length wall.now.layout.legs) (IsHeldPlace (state_on wall.now))) }
    ensures none { IfNone result (NoneHeld wall.now) }
{
    for place in 0..wall.places() {
        if is_held(wall, place, words) {
            return Some(place);
        }
    }
    None
}
