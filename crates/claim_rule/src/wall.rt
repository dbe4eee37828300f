//! The table when it is closed.
ghost use Rattle.std.specs.Prelude.{◌≡◌, ◌<◌, length, slice_get, IfSome, IsSome, ◌↔◌};
ghost use Rattle.leg_masks.specs.Interval.{halves};
ghost use Rattle.history_model.specs.Booking.{row_words};
ghost use Rattle.history_model.specs.Words.{place_number, row_number};

use crate::chronicle::Chronicle;
use crate::numbers::{number_of_place, number_of_row};
use atomic_table::Closed;
use history_model::booking::ROW_WORDS;
use leg_masks::HALVES;
use rail_ids::PlaceNo;
use std::alloc::Global;
use std::marker::Model;

/// The words at the end, and for contracts the history of which they are.
pub struct Wall {
    pub(crate) closed: Closed<u64, Global>,
    pub(crate) places: u32,
    pub(crate) rows: u32,
    pub(crate) chronicle: Chronicle,
}

impl Model for Wall {
    ghost use Rattle.std.specs.Prelude.{◌≡◌, ◌+◌, ◌*◌, length};
    ghost use Rattle.leg_masks.specs.Interval.{halves};
    ghost use Rattle.history_model.specs.Booking.{row_words};
    ghost use Rattle.std.specs.Mem.Slots.{slots_items, slots_len, IsFull};
    ghost use Rattle.claim_rule.specs.Walls.{WallView};

    ghost Value = { WallView };

    ghost view = { λ w. record {
      layout = w.chronicle.view.plan;
      words = slots_items w.closed.words;
      history = w.chronicle.view.history;
    } };

    ghost invariant = { λ w. (w.places ≡ length w.chronicle.view.plan.legs) × (w.rows ≡ w.chronicle.view.plan.rows)
        × IsFull w.closed.words × (slots_len w.closed.words ≡ halves * w.places + row_words * w.rows)
        × (slots_len w.closed.slots ≡ 0) };
}

impl Wall {
    /// How many places there are.
    pub fn places(&self) -> u32
        ensures { result ≡ length self.now.layout.legs }
    {
        self.places
    }

    /// How many booking rows there are.
    pub fn rows(&self) -> u32
        ensures { result ≡ self.now.layout.rows }
    {
        self.rows
    }

    /// The word of a half of a place. Bit b of half 0 is set where leg b is taken, of half 1 where leg b + 63 is.
    /// `None` exactly where there is no such place or half.
    pub fn place_word(&self, place: PlaceNo, half: u8) -> Option<u64>
        ensures there { IsSome result ↔ ((place.0 < length self.now.layout.legs) × (half < halves)) }
        ensures word { IfSome result (λ n. slice_get self.now.words (place_number place.0 half) ≡ Some n) }
    {
        if place.0 >= self.places {
            return None;
        }
        if half >= HALVES {
            return None;
        }
        Some(self.closed.word(number_of_place(place.0, half)))
    }

    /// A word of a row.
    pub fn row_word(&self, row: u32, word: u8) -> Option<u64>
        ensures there { IsSome result ↔ ((row < self.now.layout.rows) × (word < row_words)) }
        ensures word { IfSome result (λ n. slice_get self.now.words (row_number self.now.layout row word) ≡ Some n) }
    {
        if row >= self.rows {
            return None;
        }
        if usize::from(word) >= ROW_WORDS {
            return None;
        }
        Some(self.closed.word(number_of_row(self.places, row, word)))
    }
}

impl Drop for Wall {
    fn drop(self) {
        let Self {
            closed,
            places: _,
            rows: _,
            chronicle: _,
        } = self;
        closed.free();
    }
}
