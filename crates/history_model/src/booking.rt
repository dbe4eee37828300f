ghost use Rattle.std.specs.Prelude.{◌≡◌, ◌+◌, ◌-◌, ◌<◌, ◌≤◌, ◌↔◌, ◌⊎◌, [], ◌∷◌, ◌++◌, All, IsTrue, OnOk, OnErr, length, map, slice_set, take, drop, true};
ghost use Rattle.leg_masks.specs.Interval.{item_word};
ghost use Rattle.history_model.specs.Allows.{AreWrittenIn};
ghost use Rattle.history_model.specs.Booking.{row_words, first_item_word, successor_word};

use crate::phase::{EndKind, Phase, amount_word_of};
use crate::successor::SUCCESSOR_ROWS;
use leg_masks::{Span, item_word_of};
use std::alloc::{AllocError, Global};
use std::marker::Model;

/// How many words a row has.
pub const ROW_WORDS: usize = 64;
/// How many items a booking may have.
pub const MOST_ITEMS: usize = 48;
/// The word of a row that says how its booking stands: the phase and the generation.
pub const STANDING_WORD: u8 = 0;
/// The word of the retailer's number.
pub const RETAILER_WORD: u8 = 1;
/// The word of the moment until which the booking may be confirmed, in seconds.
pub const LIMIT_WORD: u8 = 2;
/// The word of the total, in minor units.
pub const TOTAL_WORD: u8 = 3;
/// The word of the number of items.
pub const COUNT_WORD: u8 = 4;
/// The word of the successor of an end.
pub const END_SUCCESSOR_WORD: u8 = 5;
/// The word of the amount of an end.
pub const END_AMOUNT_WORD: u8 = 6;
/// The word of the moment of an end, in seconds.
pub const END_MOMENT_WORD: u8 = 7;
/// The word of a row's first item. The words past the last item's stay 0.
pub const FIRST_ITEM_WORD: usize = 8;
/// The last moment, in seconds: 2099-12-31T23:59:59Z.
pub const LAST_MOMENT: u64 = 4_102_444_799;
/// The greatest number of a retailer.
pub const GREATEST_RETAILER: u64 = 4_294_967_295;
/// The greatest total of a booking, and the greatest amount paid back, in minor units.
pub const GREATEST_AMOUNT: u64 = 99_999_999_999;

/// Legs of a place that a booking has, or had until they were given back.
#[derive(Clone, Copy, PartialEq, Eq)]
pub struct BookedItem {
    pub place: u32,
    pub span: Span,
    pub given_back: bool,
}

/// How a booking ended: when, the amount, and the word of its successor, or 0.
#[derive(Clone, Copy, PartialEq, Eq)]
pub struct End {
    pub moment: u64,
    pub amount: i64,
    pub successor: u64,
}

/// Whether the words begin with those of the items, in order.
fn begins_with(words: &[u64], items: &[BookedItem]) -> bool
    ensures { IsTrue result ↔ (take (length items.now) words.now ≡ map (λ i. item_word i.place i.span) items.now) }
{
    if words.len() < items.len() {
        return false;
    }
    for i in 0..items.len() {
        let item = items[i];
        if words[i] != item_word_of(item.place, item.span) {
            return false;
        }
    }
    true
}

/// Whether the words of a row have those of the items, in order.
fn are_written(words: &[u64], items: &[BookedItem]) -> bool
    requires { length words.now ≡ row_words }
    ensures { IsTrue result ↔ AreWrittenIn words.now items.now }
{
    begins_with(&words[FIRST_ITEM_WORD..], items)
}

/// A booking of the list.
#[derive(Drop)]
pub struct BookingRow {
    pub row: u32,
    pub generation: u32,
    pub owner: u32,
    pub phase: Phase,
    pub items: Vec<BookedItem>,
    pub words: [u64; ROW_WORDS],
    pub end: End,
}

impl Model for BookingRow {
    ghost use Rattle.history_model.specs.Booking.{Booking};

    ghost Value = { Booking };

    ghost view = { λ b. record {
      row = b.row;
      generation = b.generation;
      owner = b.owner;
      phase = b.phase;
      items = b.items.items;
      words = b.words;
      end = b.end;
    } };
}

impl BookedItem {
    ghost use Rattle.history_model.specs.Allowed.{Blocks};

    /// Whether the span may be taken at the place besides this item.
    pub fn is_clear(self, place: u32, span: Span) -> bool
        ensures { IsTrue result ↔ (¬ Blocks place span self) }
    {
        self.given_back || self.place != place || !self.span.meets(span)
    }
}

impl BookedItem {
    ghost use Rattle.history_model.specs.Booking.{occupies};

    /// Whether the item has the leg of the place, and isn't given back.
    pub fn occupies(self, place: u32, leg: u8) -> bool
        ensures { result ≡ occupies place leg self }
    {
        self.place == place && !self.given_back && self.span.from <= leg && leg < self.span.to
    }
}

impl BookingRow {
    ghost use Rattle.history_model.specs.Booking.{occupies};
    ghost use Rattle.std.specs.List.{list_any};
    ghost use Rattle.history_model.specs.Allowed.{Blocks, IsMadeBy, IsLeft, IsBeingEndedBy, MayGive, MayNote, IsSealable, AllGiven, HasEndWords, MayClose, IsExchangedFor};
    ghost use Rattle.history_model.specs.Phase.{is_ended};
    ghost use Rattle.history_model.specs.Apply.{started, item_taken, given, noted, in_phase, turned, closed};

    /// A booking in the making, with the words that the row has.
    pub fn start(
        alloc: Global,
        row: u32,
        generation: u32,
        desk: u32,
        words: [u64; ROW_WORDS],
    ) -> Self
        ensures { result ≡ started row generation desk words }
    {
        BookingRow {
            row,
            generation,
            owner: desk,
            phase: Phase::Making,
            items: Vec::new(alloc),
            words,
            end: End {
                moment: 0,
                amount: 0,
                successor: 0,
            },
        }
    }

    /// Whether the booking is in the making by this desk.
    pub fn is_made_by(&self, desk: u32) -> bool
        ensures { IsTrue result ↔ IsMadeBy desk self.now }
    {
        self.phase == Phase::Making && self.owner == desk
    }

    /// Whether the span may be taken at the place besides all items.
    pub fn is_clear(&self, place: u32, span: Span) -> bool
        ensures { IsTrue result ↔ All (λ i. ¬ Blocks place span i) self.now.items }
    {
        self.items.iter().all(|i| i.is_clear(place, span))
    }

    /// Whether the desk may give the item back.
    pub fn may_give(&self, desk: u32, item: u8) -> bool
        ensures { IsTrue result ↔ MayGive desk item self.now }
    {
        (self.is_made_by(desk) && item as usize + 1 == self.items.len())
            || (self.is_being_ended_by(desk) && self.is_left(item))
    }

    /// Whether the desk may set the word.
    pub fn may_note(&self, desk: u32, word: u8) -> bool
        ensures { IsTrue result ↔ MayNote desk word self.now }
    {
        if self.is_made_by(desk) {
            (RETAILER_WORD <= word && word <= COUNT_WORD)
                || (FIRST_ITEM_WORD <= word as usize
                    && (word as usize) < FIRST_ITEM_WORD + MOST_ITEMS)
        } else {
            self.is_being_ended_by(desk) && END_SUCCESSOR_WORD <= word && word <= END_MOMENT_WORD
        }
    }

    /// Whether an item that isn't given back has the leg of the place.
    pub fn occupies(&self, place: u32, leg: u8) -> bool
        ensures { result ≡ list_any (occupies place leg) self.now.items }
    {
        self.items.iter().any(|i| i.occupies(place, leg))
    }

    /// Whether the booking has all that a seal asks of it.
    pub fn is_sealable(&self) -> bool
        ensures { IsTrue result ↔ IsSealable self.now }
    {
        let count = self.items.len();
        if count == 0 {
            return false;
        }
        if self.words[RETAILER_WORD as usize] > GREATEST_RETAILER
            || self.words[LIMIT_WORD as usize] > LAST_MOMENT
            || self.words[TOTAL_WORD as usize] > GREATEST_AMOUNT
        {
            return false;
        }
        if self.words[COUNT_WORD as usize] != count as u64 {
            return false;
        }
        are_written(&self.words, &self.items)
    }

    /// Adds an item.
    pub fn take(&mut self, place: u32, span: Span) -> Result<(), AllocError>
        ensures ok { OnOk result (self.new ≡ item_taken place span self.old) }
        ensures err { OnErr result (self.new ≡ self.old) }
    {
        self.items.push(BookedItem {
            place,
            span,
            given_back: false,
        })?;
        Ok(())
    }

    /// Gives an item back: drops the last item of a booking in the making, and marks the item of an ending.
    pub fn give(&mut self, item: u8)
        ensures { self.new ≡ given item self.old }
    {
        match self.phase {
            Phase::Making => {
                self.items.pop();
            }
            Phase::Ending(_) => {
                if (item as usize) < self.items.len() {
                    self.items[item as usize].given_back = true;
                }
            }
            _ => {}
        }
    }

    /// Whether the item is there and not given back.
    pub fn is_left(&self, item: u8) -> bool
        ensures { IsTrue result ↔ IsLeft self.now item }
    {
        match self.items.get(item as usize) {
            Some(i) => !i.given_back,
            None => false,
        }
    }

    /// Whether all items are given back.
    pub fn is_given(&self) -> bool
        ensures { IsTrue result ↔ AllGiven self.now }
    {
        self.all_given()
    }

    fn all_given(&self) -> bool
        ensures { IsTrue result ↔ All (λ i. i.given_back ≡ true) self.now.items }
    {
        self.items.iter().all(|i| i.given_back)
    }

    /// Whether the end is noted in the words.
    pub fn has_end_words(&self, kind: EndKind) -> bool
        ensures { IsTrue result ↔ HasEndWords kind self.now }
    {
        if self.words[END_SUCCESSOR_WORD as usize] != self.end.successor {
            return false;
        }
        if self.words[END_AMOUNT_WORD as usize] != amount_word_of(kind, self.end.amount) {
            return false;
        }
        self.words[END_MOMENT_WORD as usize] == self.end.moment
    }

    /// Whether the desk may close the booking.
    pub fn may_close(&self, desk: u32) -> bool
        ensures { IsTrue result ↔ MayClose desk self.now }
    {
        match self.phase {
            Phase::Ending(kind) => self.owner == desk
                && self.is_given()
                && self.has_end_words(kind),
            _ => false,
        }
    }

    /// Whether the booking has ended.
    pub fn is_ended(&self) -> bool
        ensures { result ≡ is_ended self.now.phase }
    {
        matches!(self.phase, Phase::Ended(_))
    }

    /// Whether the word is that of this booking as the successor of another.
    pub fn is_successor(&self, word: u64) -> bool
        ensures { IsTrue result ↔ (successor_word self.now.row self.now.generation ≡ word) }
    {
        if word == 0 {
            return false;
        }
        (word - 1) % SUCCESSOR_ROWS == u64::from(self.row)
            && (word - 1) / SUCCESSOR_ROWS == u64::from(self.generation)
    }

    /// Whether the desk turned this booking to an exchange for the other.
    pub fn is_exchanged_for(&self, desk: u32, other: &BookingRow) -> bool
        ensures { IsTrue result ↔ IsExchangedFor desk (successor_word other.now.row other.now.generation) self.now }
    {
        if self.owner != desk {
            return false;
        }
        if !other.is_successor(self.end.successor) {
            return false;
        }
        matches!(
            self.phase,
            Phase::Ending(EndKind::Exchange) | Phase::Ended(EndKind::Exchange)
        )
    }

    /// Whether the booking is ending by this desk.
    pub fn is_being_ended_by(&self, desk: u32) -> bool
        ensures { IsTrue result ↔ IsBeingEndedBy desk self.now }
    {
        matches!(self.phase, Phase::Ending(_)) && self.owner == desk
    }

    /// Sets a word.
    pub fn note(&mut self, word: u8, value: u64)
        ensures { self.new ≡ noted word value self.old }
    {
        if (word as usize) < ROW_WORDS {
            self.words[word as usize] = value;
        }
    }

    /// Sets the phase.
    pub fn set_phase(&mut self, phase: Phase)
        ensures { self.new ≡ in_phase phase self.old }
    {
        self.phase = phase;
    }

    /// Turns the phase, and for an ending sets owner and end.
    pub fn turn(&mut self, desk: u32, to: Phase, end: End)
        ensures { self.new ≡ turned desk to end self.old }
    {
        if let Phase::Ending(_) = to {
            self.owner = desk;
            self.end = end;
        }
        self.phase = to;
    }

    /// Ends an ending.
    pub fn close(&mut self)
        ensures { self.new ≡ closed self.old }
    {
        if let Phase::Ending(kind) = self.phase {
            self.phase = Phase::Ended(kind);
        }
    }
}
