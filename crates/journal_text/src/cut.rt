//! The cuts of a journal.
ghost use Rattle.std.specs.Prelude.{◌≡◌, ◌↔◌, IfNone, true};
ghost use Rattle.journal_text.specs.Texts.{HoldsCut};
ghost use Rattle.journal_text.specs.Reads.{IsOpening, ReadsCut, ReadsNext, ReadsWhole, said_opening_text};

use crate::reader::{Reader, front};
use crate::sum::Sum;

/// A whole cut. Nothing is said of its body.
#[derive(Drop)]
pub(crate) struct Cut<'a> {
    pub(crate) number: u64,
    /// How many lines it says it has.
    pub(crate) count: u64,
    pub(crate) before: Sum,
    pub(crate) body: &'a [u8],
    /// Its own sum.
    pub(crate) sum: Sum,
}

/// What the first line of a cut says.
#[derive(Clone, Copy)]
pub(crate) struct Opening {
    number: u64,
    count: u64,
    size: u64,
    before: Sum,
}

impl<'a> Reader<'a> {
    // The first line of a cut.
    fn opening(&mut self) -> Option<Opening>
        ensures { ReadsWhole said_opening_text IsOpening self.old.rest.now self.new.rest.now result }
    {
        if !self.eat(b"cut") {
            return None;
        }
        let number = self.field()?;
        let count = self.field()?;
        let size = self.field()?;
        let before = self.sum()?;
        if !self.eat(b"\n") {
            return None;
        }
        Some(Opening {
            number,
            count,
            size,
            before,
        })
    }

    /// The whole cut at the front.
    pub(crate) fn cut(&mut self) -> Option<Cut<'a>>
        ensures { ReadsCut self.old.rest.now self.new.rest.now result }
    {
        let start = self.rest;
        let opening = self.opening()?;
        let body = self.bytes(opening.size)?;
        let summed = front(start, self.rest);
        if !self.eat(b"sum ") {
            return None;
        }
        let sum = Sum::of(summed);
        if !self.eat(&sum.digits) {
            return None;
        }
        if !self.eat(b"\n") {
            return None;
        }
        Some(Cut {
            number: opening.number,
            count: opening.count,
            before: opening.before,
            body,
            sum,
        })
    }

    /// The whole cut at the front, if it has this number and this sum before it. Else nothing goes.
    pub(crate) fn next_cut(&mut self, number: u64, before: &Sum) -> Option<Cut<'a>>
        ensures read { ReadsNext number before.now.digits self.old.rest.now self.new.rest.now result }
        ensures none { IfNone result (self.new.rest.now ≡ self.old.rest.now) }
    {
        let mut ahead = Reader { rest: self.rest };
        let cut = ahead.cut()?;
        if cut.number != number || cut.before.digits != before.digits {
            return None;
        }
        self.rest = ahead.rest;
        Some(cut)
    }
}

/// Whether a whole cut begins somewhere in a text.
pub(crate) fn holds_cut(text: &[u8]) -> bool
    ensures { result ≡ true ↔ HoldsCut text.now }
{
    let mut reader = Reader { rest: text };
    loop {
        let mut ahead = Reader { rest: reader.rest };
        if ahead.cut().is_some() {
            return true;
        }
        let Some((_, more)) = reader.rest.split_first() else {
            return false;
        };
        reader.rest = more;
    }
}
