//! Legs of a run as bits of a word, and items as words.
//!
//! A run of n stops has n - 1 legs, numbered from 0, and at most 126. A place has two words, one for each half of the
//! legs: legs 0 to 62 are the bits of the first, legs 63 to 125 those of the second. A stretch of a run lies in one
//! half, or has a piece in each; a piece is a mask over the word of its half. What that word says of a piece is
//! answered here: whether it is free, and if not, where it is taken first. A booking's row keeps each of its items, a
//! piece at a place, in a word; no word is read as two items.
//!
//! No call takes memory.
//!
//! A `Span` and an `Item` can't be made out of their ranges, nor an `Item` over the border between the halves:
//! whoever writes one down proves them.
#![tactic(auto)]

mod halves;
mod item_words;
mod place_words;

ghost use Rattle.std.specs.Prelude.{◌≡◌, ◌<◌, ◌≤◌, ◌↔◌, IsTrue, IsSome, IfSome};
ghost use Rattle.leg_masks.specs.Interval.{Interval, IsPiece, Meet, is_piece, most_legs, most_places};

pub use halves::{HALVES, WORD_LEGS, half_of, pieces};
pub use item_words::{item_word_of, read_item, write_item};
pub use place_words::{first_taken, free_on, mask_of};
use std::marker::Model;

/// How many legs a run and a place have at most: legs 0 to 125.
pub const MOST_LEGS: u8 = 126;

/// How many places there may be.
pub const MOST_PLACES: u32 = 4_194_304;

/// A stretch of a run: the legs from `from` up to the one before `to`, at least one, none past the greatest leg.
#[derive(Clone, Copy, PartialEq, Eq)]
pub struct Span {
    pub from: u8,
    pub to: u8,
}

impl Model for Span {
    ghost use Rattle.std.specs.Prelude.{◌<◌, ◌≤◌};
    ghost use Rattle.leg_masks.specs.Interval.{Interval, most_legs};

    ghost Value = { Interval };

    ghost view = { λ s. record { from = s.from; to = s.to } };

    ghost invariant = { λ s. (s.from < s.to) × (s.to ≤ most_legs) };

    ghost inverse = { λ n. record { from = n.from; to = n.to } };
}

impl Span {
    /// The span with these ends: `None` exactly where it has no leg, or one past the greatest.
    pub fn new(from: u8, to: u8) -> Option<Self>
        ensures valid { IsSome result ↔ ((from < to) × (to ≤ most_legs)) }
        ensures value { IfSome result (λ span. span ≡ record { from = from; to = to }) }
    {
        if from < to && to <= MOST_LEGS {
            Some(Span { from, to })
        } else {
            None
        }
    }

    /// Whether the span lies in one half.
    pub fn is_piece(self) -> bool
        ensures test { result ≡ is_piece self }
        ensures piece { IsTrue result ↔ IsPiece self }
    {
        self.to <= WORD_LEGS || WORD_LEGS <= self.from
    }

    /// The first leg.
    pub fn from(self) -> u8
        ensures value { result ≡ self.from }
        ensures some { self.from < self.to }
    {
        self.from
    }

    /// The leg after the last.
    pub fn to(self) -> u8
        ensures value { result ≡ self.to }
        ensures most { result ≤ most_legs }
        ensures some { self.from < self.to }
    {
        self.to
    }

    /// Whether some leg is in both.
    pub fn meets(self, other: Span) -> bool
        ensures { IsTrue result ↔ Meet self other }
    {
        self.from < other.to && other.from < self.to
    }
}

impl Default for Span {
    fn default() -> Self {
        Span { from: 0, to: 1 }
    }
}

/// Legs of a place, which is below `MOST_PLACES`. They lie in one half.
#[derive(Clone, Copy, PartialEq, Eq)]
pub struct Item {
    pub place: u32,
    pub span: Span,
}

impl Model for Item {
    ghost use Rattle.std.specs.Prelude.{◌<◌};
    ghost use Rattle.leg_masks.specs.Interval.{IsPiece, PlacedSpan, most_places};

    ghost Value = { PlacedSpan };

    ghost view = { λ i. record { place = i.place; span = i.span } };

    ghost invariant = { λ i. (i.place < most_places) × IsPiece i.span };

    ghost inverse = { λ i. record { place = i.place; span = i.span } };
}

impl Item {
    /// The item of this place and these legs: `None` exactly where there is no such place, or the legs don't lie in one
    /// half.
    pub fn new(place: u32, span: Span) -> Option<Self>
        ensures valid { IsSome result ↔ ((place < most_places) × IsPiece span) }
        ensures value { IfSome result (λ item. item ≡ record { place = place; span = span }) }
    {
        if place < MOST_PLACES && span.is_piece() {
            Some(Item { place, span })
        } else {
            None
        }
    }

    /// The place.
    pub fn place(self) -> u32
        ensures value { result ≡ self.place }
        ensures most { result < most_places }
    {
        self.place
    }

    /// The legs, which lie in one half.
    pub fn span(self) -> Span
        ensures value { result ≡ self.span }
        ensures piece { IsPiece result }
    {
        self.span
    }
}

impl Default for Item {
    fn default() -> Self {
        Item {
            place: 0,
            span: Span { from: 0, to: 1 },
        }
    }
}
