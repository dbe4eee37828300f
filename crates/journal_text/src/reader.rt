//! A reader of a journal's text, from its front.
ghost use Rattle.std.specs.Prelude.{◌≡◌, ◌-◌, ◌++◌, ◌<◌, ◌≤◌, length, MatchOption, take};
ghost use Rattle.line_text.specs.Lines.{IsNumber, number_field};
ghost use Rattle.line_text.specs.Reads.{Eats, Reads};
ghost use Rattle.journal_text.specs.Reads.{IsSum, sum_field};

use crate::sum::{SUM_DIGITS, Sum, are_hex};

/// What is left of the text. What is read goes.
#[derive(Drop)]
pub(crate) struct Reader<'a> {
    pub(crate) rest: &'a [u8],
}

impl<'a> Reader<'a> {
    /// Whether these bytes stand at the front, which then go.
    pub(crate) fn eat(&mut self, bytes: &[u8]) -> bool
        ensures { Eats bytes.now self.old.rest.now self.new.rest.now result }
    {
        let mut reader = line_text::Reader { rest: self.rest };
        let stood = reader.eat(bytes);
        self.rest = reader.rest;
        stood
    }

    /// The number that is the next field.
    pub(crate) fn field(&mut self) -> Option<u64>
        ensures { Reads number_field IsNumber self.old.rest.now self.new.rest.now result }
    {
        let mut reader = line_text::Reader { rest: self.rest };
        let number = reader.field();
        self.rest = reader.rest;
        number
    }

    /// The sum that is the next field.
    pub(crate) fn sum(&mut self) -> Option<Sum>
        ensures { Reads sum_field IsSum self.old.rest.now self.new.rest.now result }
    {
        if !self.eat(b" ") {
            return None;
        }
        let (digits, more) = self.rest.split_first_chunk::<SUM_DIGITS>()?;
        if !are_hex(digits) {
            return None;
        }
        self.rest = more;
        Some(Sum { digits: *digits })
    }

    /// That many bytes from the front.
    pub(crate) fn bytes(&mut self, count: u64) -> Option<&'a [u8]>
        ensures { MatchOption result (length self.old.rest.now < count)
            (λ bytes. (self.old.rest.now ≡ bytes.now ++ self.new.rest.now) × (length bytes.now ≡ count)) }
    {
        if (self.rest.len() as u64) < count {
            return None;
        }
        let (bytes, more) = self.rest.split_at(count as usize);
        self.rest = more;
        Some(bytes)
    }
}

/// What of a text stands before what is left of it.
pub(crate) fn front<'a>(text: &'a [u8], rest: &[u8]) -> &'a [u8]
    requires { length rest.now ≤ length text.now }
    ensures { result.now ≡ take (length text.now - length rest.now) text.now }
{
    text.split_at(text.len() - rest.len()).0
}
