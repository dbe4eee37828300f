//! A plain list of bookings that follows a history, entry by entry. It is slow, and is there to be compared with.

ghost use Rattle.std.specs.Prelude.{◌≡◌, ◌<◌, ◌≤◌, ◌↔◌, ◌≢◌, [], true, Err, IsTrue, OnOk, OnErr, None, slice_index, ℕ, cond};
ghost use Rattle.history_model.specs.Allowed.{IsAllowed, IsAllowedStep, IsRow, IsPlace, MayStart};
ghost use Rattle.history_model.specs.Allows.{FitsIn, IsAllowedIn, IsTurnIn, ShowsOther, ShowsPlace, ShowsRow, HasOccupiedBits};
ghost use Rattle.history_model.specs.declared.entry.Step.{Step};
ghost use Rattle.leg_masks.specs.Interval.{IsPiece, halves, most_places};
ghost use Rattle.history_model.specs.Booking.{most_rows, layout_of, is_occupied, row_words};
ghost use Rattle.history_model.specs.Laws.{IsWellFormed, NoDouble, GoesOn};
ghost use Rattle.history_model.specs.Words.{place_word, row_word};
ghost use Rattle.history_model.specs.Apply.{apply, is_growing};

use crate::allowed::{has_room, may_close, may_give, may_note, may_seal, may_start, row_turns};
use crate::applied::carry_out;
use crate::booking::{BookingRow, End, LAST_MOMENT, ROW_WORDS};
use crate::entry::{Entry, Step};
use crate::phase::{Phase, is_turn};
use crate::shown::{is_open, word_of_place, word_of_row};
use leg_masks::{HALVES, MOST_LEGS, Span};
use rail_ids::PlaceNo;
use std::alloc::Global;
use std::marker::Model;

/// Why an entry was not applied.
#[derive(Clone, Copy, Debug, PartialEq, Eq)]
pub enum ApplyFault {
    NotAllowed,
    NoMemory,
}

/// How many legs each place of a list host has.
const HOST_LEGS: u8 = MOST_LEGS;

/// A plain list of bookings. Each place has 126 legs.
#[derive(Drop)]
pub struct ListHost {
    places: u32,
    rows: u32,
    bookings: Vec<BookingRow>,
    alloc: Global,
}

impl Model for ListHost {
    ghost use Rattle.std.specs.Prelude.{◌≤◌};
    ghost use Rattle.leg_masks.specs.Interval.{most_places};
    ghost use Rattle.history_model.specs.Booking.{Host, layout_of, most_rows};
    ghost use Rattle.history_model.specs.Laws.{IsWellFormed};

    ghost Value = { Host };

    ghost view = { λ h. record { layout = layout_of h.places h.rows; bookings = h.bookings.items } };

    ghost invariant = { λ h. (h.places ≤ most_places) × (h.rows ≤ most_rows)
        × IsWellFormed (layout_of h.places h.rows) h.bookings.items };
}

impl ListHost {
    /// An empty list, for this many places and rows.
    pub fn new(alloc: Global, places: u32, rows: u32) -> Self
        requires few_places { places ≤ most_places }
        requires few_rows { rows ≤ most_rows }
        ensures { result ≡ record { layout = layout_of places rows; bookings = [] } }
    {
        ListHost {
            places,
            rows,
            bookings: Vec::new(alloc),
            alloc,
        }
    }

    /// Applies an entry: `NotAllowed` exactly where it is not allowed in the present list, `NoMemory` only at a start
    /// or a take. After either the list is as before.
    pub fn apply(&mut self, entry: Entry) -> Result<(), ApplyFault>
        ensures not_allowed { (result ≡ Err ApplyFault.NotAllowed) ↔ (¬ IsAllowedIn self.old entry) }
        ensures allowed { OnOk result (IsAllowedIn self.old entry) }
        ensures ok { OnOk result (self.new ≡ record self.old { bookings = apply self.old.bookings entry }) }
        ensures err { OnErr result (self.new ≡ self.old) }
        ensures memory { result ≡ Err ApplyFault.NoMemory → is_growing entry.step ≡ true }

        // What holds of every list.
        ensures well_formed { IsWellFormed self.new.layout self.new.bookings }
        ensures no_double { NoDouble self.new.bookings }

        // What an entry does to each booking.
        ensures goes_on { GoesOn entry.desk self.old.bookings self.new.bookings }
    {
        if !self.allows(entry.desk, entry.step) {
            return Err(ApplyFault::NotAllowed);
        }
        let Ok(()) = carry_out(&mut self.bookings, self.alloc, entry.desk, entry.step) else {
            return Err(ApplyFault::NoMemory);
        };
        Ok(())
    }

    /// The occupied legs of a half of a place as bits, by a look at every booking. Half 0 has legs 0 to 62, half 1 legs
    /// 63 to 125.
    pub fn occupied(&self, place: PlaceNo, half: u8) -> u64
        requires half { half < halves }
        ensures word { result ≡ place_word self.now.bookings place.0 half }
        ensures bits { HasOccupiedBits self.now place.0 half result }
    {
        word_of_place(&self.bookings, place.0, half)
    }

    fn is_row(&self, row: u32) -> bool
        ensures { IsTrue result ↔ IsRow self.now.layout row }
    {
        row < self.rows
    }

    fn is_place(&self, place: u32) -> bool
        ensures { IsTrue result ↔ IsPlace self.now.layout place }
    {
        place < self.places
    }

    /// Whether the span lies in one half, and within the legs of the place.
    fn fits(&self, place: u32, span: Span) -> bool
        ensures { IsTrue result ↔ FitsIn self.now place span }
    {
        place < self.places && span.from < span.to && span.is_piece() && span.to <= HOST_LEGS
    }

    fn may_start(&self, row: u32, generation: u32) -> bool
        ensures { IsTrue result ↔ (IsRow self.now.layout row × MayStart self.now.bookings row generation) }
    {
        self.is_row(row) && may_start(&self.bookings, row, generation)
    }

    fn may_take(&self, desk: u32, row: u32, place: u32, span: Span) -> bool
        ensures { IsTrue result ↔ IsAllowedStep self.now.layout self.now.bookings desk (Step.Take row place span) }
    {
        self.is_row(row)
            && self.fits(place, span)
            && has_room(&self.bookings, desk, row)
            && is_open(&self.bookings, place, span)
    }

    fn may_seal(&self, desk: u32, row: u32, phase: Phase) -> bool
        ensures { IsTrue result ↔ IsAllowedStep self.now.layout self.now.bookings desk (Step.Seal row phase) }
    {
        self.is_row(row) && may_seal(&self.bookings, desk, row, phase)
    }

    fn may_look(&self, place: u32, half: u8, shown: u64) -> bool
        ensures { IsTrue result ↔ ShowsPlace self.now place half shown }
    {
        self.is_place(place) && half < HALVES && shown == word_of_place(&self.bookings, place, half)
    }

    fn may_see(&self, row: u32, word: u8, value: u64) -> bool
        ensures { IsTrue result ↔ ShowsRow self.now row word value }
    {
        if !self.is_row(row) {
            return false;
        }
        if word as usize >= ROW_WORDS {
            return false;
        }
        value == word_of_row(&self.bookings, row, word)
    }

    fn may_lose(&self, row: u32, wanted: u64, shown: u64) -> bool
        ensures { IsTrue result ↔ ShowsOther self.now row wanted shown }
    {
        self.is_row(row) && shown == word_of_row(&self.bookings, row, 0) && shown != wanted
    }

    fn may_turn(&self, desk: u32, row: u32, from: Phase, to: Phase, end: End) -> bool
        ensures { IsTrue result ↔ IsTurnIn self.now desk row from to end }
    {
        if !self.is_row(row) {
            return false;
        }
        if !is_turn(from, to) {
            return false;
        }
        if end.moment > LAST_MOMENT {
            return false;
        }
        row_turns(&self.bookings, desk, row, from, to, end)
    }

    /// Whether the desk's step is allowed.
    fn allows(&self, desk: u32, step: Step) -> bool
        ensures { IsTrue result ↔ IsAllowedStep self.now.layout self.now.bookings desk step }
    {
        match step {
            Step::Look { place, half, shown } => self.may_look(place, half, shown),
            Step::SawRow { row, word, value } => self.may_see(row, word, value),
            Step::Start { row, generation } => self.may_start(row, generation),
            Step::Take { row, place, span } => self.may_take(desk, row, place, span),
            Step::Give { row, item } => self.is_row(row)
                && may_give(&self.bookings, desk, row, item),
            Step::Note {
                row,
                word,
                value: _,
            } => self.is_row(row) && may_note(&self.bookings, desk, row, word),
            Step::Seal { row, phase } => self.may_seal(desk, row, phase),
            Step::Turn {
                row,
                from,
                to,
                moment,
                amount,
                successor,
            } => {
                self.may_turn(
                    desk,
                    row,
                    from,
                    to,
                    End {
                        moment,
                        amount,
                        successor,
                    },
                )
            }
            Step::LostTurn { row, wanted, shown } => self.may_lose(row, wanted, shown),
            Step::Close { row } => self.is_row(row) && may_close(&self.bookings, desk, row),
            Step::Met => true,
        }
    }
}
