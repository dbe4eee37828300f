//! The first line of a journal.
ghost use Rattle.journal_text.specs.Reads.{IsSaidHead, ReadsWhole, said_head_text};

use crate::reader::Reader;
use crate::sum::Sum;

/// The most rows that books have.
const MOST_ROWS: u64 = 262_144;

/// What the first line says.
#[derive(Clone, Copy)]
pub(crate) struct Head {
    pub(crate) places: u64,
    pub(crate) rows: u64,
    pub(crate) print: Sum,
}

impl<'a> Reader<'a> {
    /// The first line, with its line feed.
    pub(crate) fn head(&mut self) -> Option<Head>
        ensures { ReadsWhole said_head_text IsSaidHead self.old.rest.now self.new.rest.now result }
    {
        if !self.eat(b"rail-journal 1") {
            return None;
        }
        let places = self.field()?;
        let rows = self.field()?;
        let print = self.sum()?;
        if rows > MOST_ROWS || !self.eat(b"\n") {
            return None;
        }
        Some(Head {
            places,
            rows,
            print,
        })
    }
}
