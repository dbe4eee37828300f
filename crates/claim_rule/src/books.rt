//! The books: the shared table, and one step of each kind of atomic operation on it.
ghost use Rattle.std.specs.Prelude.{◌≡◌, ◌<◌, length, ◌==◌, ◌≤◌, bit_and, All, List, [], IfOk};
ghost use prog.Atomic.{either};
ghost use Rattle.leg_masks.specs.Interval.{IsPiece, most_places};
ghost use Rattle.history_model.specs.Booking.{most_rows};
ghost use Rattle.history_model.specs.Words.{IsWord, index};
ghost use Rattle.claim_rule.specs.Rule.{Found, IsPlaceLegs, Steps, most_place_legs};
ghost use Rattle.claim_rule.specs.Desks.{IsNew, IsOf};
ghost use Rattle.claim_rule.specs.Seats.{IsSeatOf, HasMade};
ghost use Rattle.claim_rule.specs.Out.{IsTidy};
ghost use Rattle.claim_rule.specs.Openings.{AllOpenings, IsLayoutOf, KeptBooking, OpensWith};

use crate::desk::Desk;
use crate::marks::Marks;
use crate::numbers::{number_of_place, number_of_row};
use crate::opening::choose;
use crate::rule::{Adds, Finds, OneHistory, Plan, Says, View};
use atomic_table::{Seat, Table};
use history_model::entry::Step;
use history_model::word::Word;
use leg_masks::{Item, Span};
use rail_ids::PlaceNo;
use std::alloc::{AllocError, Global};
use std::marker::{Brand, Model};

/// The table under the rule.
pub type Board = Table<u64, View, Plan, OneHistory, Global>;

/// The shared table of a service: two words for each place, and 64 for each booking row. Threads share it.
#[derive(Drop)]
pub struct Books {
    pub(crate) table: Board,
    pub(crate) places: u32,
    pub(crate) rows: u32,
    pub(crate) marks: Marks,
}

impl Model for Books {
    ghost use Rattle.std.specs.Prelude.{◌≡◌, ◌<◌, ◌≤◌, ◌^◌, length, All};
    ghost use Rattle.history_model.specs.Booking.{most_rows};
    ghost use Rattle.history_model.specs.Words.{word_count};
    ghost use Rattle.claim_rule.specs.Rule.{BooksView, most_place_legs};
    ghost use Rattle.leg_masks.specs.Interval.{most_places};

    ghost Value = { BooksView };

    ghost view = { λ b. record { table = b.table.shared.table_id; layout = b.table.shared.key } };

    ghost invariant = { λ b. (b.places ≡ length b.table.shared.key.legs) × (b.rows ≡ b.table.shared.key.rows)
        × (b.table.shared.table_id.words ≡ word_count b.table.shared.key) × (0 < length b.table.shared.key.legs)
        × (b.table.shared.table_id.slots ≡ 0) × (length b.table.shared.key.legs ≤ most_places)
        × All (λ n. n ≤ most_place_legs) b.table.shared.key.legs × (b.rows ≤ most_rows) };
}

/// New books with a place for each number of legs, and their first desk. All words are 0, and the history is empty.
///
/// Want of memory is the one error.
pub fn start_books(alloc: Global, legs: &[u8], rows: u32) -> Result<(Books, Desk), AllocError>
    requires places { (0 < length legs.now) × (length legs.now ≤ most_places) }
    requires legs { All IsPlaceLegs legs.now }
    requires rows { (0 < rows) × (rows ≤ most_rows) }
    ensures layout { IfOk result (λ t. t.0.layout ≡ record { legs = legs.now; rows = rows; opening = [] }) }
    ensures own { IfOk result (λ t. IsOf t.0 t.1) }
    ensures desk { IfOk result (λ t. IsNew t.1 0 []) }
    ensures tidy { IfOk result (λ t. IsTidy t.1) }
{
    let count = number_of_row(legs.len() as u32, rows, 0);
    let words = Vec::from_elem(alloc, 0u64, count)?;
    adopt_books(alloc, legs, rows, words.as_slice())
}

/// Books with a place for each number of legs that open with bookings, and their first desk. The words are those of the
/// opening state, and the history is empty.
///
/// Want of memory is the one error.
pub fn adopt_books(
    alloc: Global,
    legs: &[u8],
    rows: u32,
    words: &[u64],
) -> Result<(Books, Desk), AllocError>
    requires places { (0 < length legs.now) × (length legs.now ≤ most_places) }
    requires legs { All IsPlaceLegs legs.now }
    requires rows { (0 < rows) × (rows ≤ most_rows) }
    requires opening { (kept : List KeptBooking) × OpensWith legs.now rows words.now kept }
    ensures layout { IfOk result (λ t. AllOpenings legs.now rows words.now t.0.layout) }
    ensures own { IfOk result (λ t. IsOf t.0 t.1) }
    ensures desk { IfOk result (λ t. IsNew t.1 0 []) }
    ensures tidy { IfOk result (λ t. IsTidy t.1) }
{
    let plan = plan_of(alloc, legs, rows, words)?;
    let (table, seat): (Board, Seat<u64, View>) = Table::of_words(alloc, words, &plan)?;
    let books = Books {
        table,
        places: legs.len() as u32,
        rows,
        marks: Marks::new(alloc, rows)?,
    };
    Ok((
        books,
        Desk {
            seat,
            kept: None,
            past: 0,
        },
    ))
}

// The plan of books that open with the bookings of these words.
fn plan_of(alloc: Global, legs: &[u8], rows: u32, words: &[u64]) -> Result<Plan, AllocError>
    requires opening { (kept : List KeptBooking) × OpensWith legs.now rows words.now kept }
    ensures { IfOk result (λ p. IsLayoutOf legs.now rows words.now p) }
{
    let copy = Vec::from_slice(alloc, legs)?;
    Ok(Plan {
        legs: copy,
        rows,
        opening: choose::<Brand>(alloc, legs, rows, words)?,
    })
}

impl Books {
    /// How many places there are: at most 4,194,304, each of at most 126 legs.
    pub fn places(&self) -> u32
        ensures count { result ≡ length self.now.layout.legs }
        ensures most { length self.now.layout.legs ≤ most_places }
        ensures legs { All (λ n. n ≤ most_place_legs) self.now.layout.legs }
    {
        let _ = &self.table;
        self.places
    }

    /// How many booking rows there are: at most 262,144.
    pub fn rows(&self) -> u32
        ensures count { result ≡ self.now.layout.rows }
        ensures most { result ≤ most_rows }
    {
        self.rows
    }

    /// Clears the marks of 64 blocks of rows, and answers which were set: block 64 * `group` has the lowest bit. A
    /// block is marked by the first step that marks one of its rows.
    pub fn take_marked_blocks(&self, group: u32) -> u64 {
        self.marks.take_blocks(group)
    }

    /// Clears the marks of 64 rows, and answers which were set: the first row of the block, 64 * `block`, has the
    /// lowest bit. A row is marked by each step that changes its standing word. None is marked where books open, and
    /// past the last row none ever is. No contract speaks of marks.
    pub fn take_marks(&self, block: u32) -> u64 {
        self.marks.take(block)
    }

    /// The item of these legs, which lie in one half, at a place of the books.
    pub fn item_at(&self, place: PlaceNo, span: Span) -> Item
        requires place { place.0 < length self.now.layout.legs }
        requires piece { IsPiece span }
        ensures item { result ≡ record { place = place.0; span = span } }
    {
        let _ = &self.table;
        Item {
            place: place.0,
            span,
        }
    }

    // The number of a word.
    fn number_of(&self, at: Word) -> usize
        requires { IsWord self.now.layout at }
        ensures { result ≡ index self.now.layout at }
    {
        match at {
            Word::Place(place, half) => number_of_place(place, half),
            Word::Row(row, word) => number_of_row(self.places, row, word),
        }
    }

    // One step of each kind of operation. The caller picks the word and the entry's step.
    pub(crate) fn load_as<N: Says>(&self, seat: &mut Seat<u64, View>, at: Word) -> u64
        requires own { IsSeatOf self.now N.layout seat.old }
        requires word { IsWord N.layout at }
        requires step { Steps N.layout seat.old.me.0 at (λ n. n) N.step }
        ensures { HasMade N.layout (N.step result) seat.old seat.new }
    {
        let word = self.number_of(at);
        self.table.shared.load::<Adds<N>>(seat, word)
    }

    pub(crate) fn exchange_as<N: Says>(
        &self,
        seat: &mut Seat<u64, View>,
        at: Word,
        old: u64,
        new: u64,
        _hit: Step,
    ) -> u64
        requires own { IsSeatOf self.now N.layout seat.old }
        requires word { IsWord N.layout at }
        requires at { at ≡ N.word }
        requires step { Steps N.layout seat.old.me.0 at (λ n. either (n == old) new n) N.step }
        ensures made { HasMade N.layout (N.step result) seat.old seat.new }
        ensures found { Found N.layout N.word result seat.old.me.0 seat.new.me.0 }
    {
        let word = self.number_of(at);
        self.table
            .shared
            .compare_exchange::<Finds<N>>(seat, word, old, new)
    }

    pub(crate) fn and_as<N: Says>(
        &self,
        seat: &mut Seat<u64, View>,
        at: Word,
        kept: u64,
        _step: Step,
    ) -> u64
        requires own { IsSeatOf self.now N.layout seat.old }
        requires word { IsWord N.layout at }
        requires step { Steps N.layout seat.old.me.0 at (λ n. bit_and n kept) N.step }
        ensures { HasMade N.layout (N.step result) seat.old seat.new }
    {
        let word = self.number_of(at);
        self.table.shared.fetch_and::<Adds<N>>(seat, word, kept)
    }

    pub(crate) fn store_as<N: Says>(
        &self,
        seat: &mut Seat<u64, View>,
        at: Word,
        new: u64,
        _step: Step,
    )
        requires own { IsSeatOf self.now N.layout seat.old }
        requires word { IsWord N.layout at }
        requires step { Steps N.layout seat.old.me.0 at (λ _. new) (λ _. N.step new) }
        ensures { HasMade N.layout (N.step new) seat.old seat.new }
    {
        let word = self.number_of(at);
        self.table.shared.store::<Adds<N>>(seat, word, new);
    }
}
