use crate::phase::Phase;
use leg_masks::Span;

/// One atomic operation on one word of the table, by one desk.
#[derive(Clone, Copy, PartialEq, Eq)]
pub struct Entry {
    /// The desk's number. The definitions know no greatest one.
    pub desk: u32,
    pub step: Step,
}

/// What an operation did, or what it showed.
#[derive(Clone, Copy, PartialEq, Eq)]
pub enum Step {
    /// A look at the word of a half of a place. A take that found another word than it expected is one too.
    Look {
        place: u32,
        half: u8,
        shown: u64,
    },
    /// The legs, which lie in one half, were taken for the booking in the row.
    Take {
        row: u32,
        place: u32,
        span: Span,
    },
    /// The item at this place of the booking's list was given back. A booking in the making drops it.
    Give {
        row: u32,
        item: u8,
    },
    /// A generation of a row was started: the first of a free row, or the next of one whose booking has ended.
    Start {
        row: u32,
        generation: u32,
    },
    /// A look at a row's word. A start that found another word than it expected is one too.
    SawRow {
        row: u32,
        word: u8,
        value: u64,
    },
    /// A word of the row was written.
    Note {
        row: u32,
        word: u8,
        value: u64,
    },
    /// The booking in the making was sealed.
    Seal {
        row: u32,
        phase: Phase,
    },
    /// The phase was turned. Moment, amount and successor are 0 where the turn has none; a successor is the word of its
    /// row and generation.
    Turn {
        row: u32,
        from: Phase,
        to: Phase,
        moment: u64,
        amount: i64,
        successor: u64,
    },
    /// A turn that wanted one word 0 of the row and found another.
    LostTurn {
        row: u32,
        wanted: u64,
        shown: u64,
    },
    /// The ending was closed.
    Close {
        row: u32,
    },
    /// The desk parted another, or joined one.
    Met,
}
