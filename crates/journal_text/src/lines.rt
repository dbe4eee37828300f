//! The lines of a cut, and the last line of each row.
ghost use Rattle.std.specs.Prelude.{◌≡◌, ◌+◌, ◌^◌, ◌<◌, IfErr, IfOk, length};
ghost use Rattle.journal_text.specs.declared.fault.JournalFault.TheVariants.{WrongLine};
ghost use Rattle.journal_text.specs.Reads.{ReadsLine, said_cut};
ghost use Rattle.journal_text.specs.Rooms.{IsLineFault, PutsLines, ReadsBetween};
ghost use Rattle.journal_text.specs.Texts.{IsSaidCut};

use crate::cut::Cut;
use crate::fault::JournalFault;
use crate::reader::{Reader, front};
use memchr::memchr;

/// A line of a row, with its line feed.
#[derive(Drop)]
pub(crate) struct Line<'a> {
    pub(crate) row: u64,
    pub(crate) text: &'a [u8],
}

impl<'a> Reader<'a> {
    /// The next line, if it is one of a row.
    pub(crate) fn line(&mut self) -> Option<Line<'a>>
        ensures { ReadsLine self.old.rest.now self.new.rest.now result }
    {
        let start = self.rest;
        if !self.eat(b"row") {
            return None;
        }
        let row = self.field()?;
        if !self.eat(b" ") {
            return None;
        }
        let end = memchr(b'\n', self.rest)?;
        self.rest = self.rest.split_at(end + 1).1;
        Some(Line {
            row,
            text: front(start, self.rest),
        })
    }
}

/// Puts the lines of a cut in the place of those that their rows had, or gives the first that isn't in its place.
pub(crate) fn put_lines<'a>(
    lasts: &mut [Option<&'a [u8]>],
    cut: &Cut<'a>,
) -> Result<(), JournalFault>
    requires said { IsSaidCut (said_cut cut.now) }
    ensures len { length lasts.new ≡ length lasts.old }
    ensures ok { IfOk result (λ _. PutsLines lasts.old (said_cut cut.now) lasts.new) }
    ensures err { IfErr result (IsLineFault (length lasts.old) (said_cut cut.now)) }
{
    let mut reader = Reader { rest: cut.body };
    let mut least = 0;
    let mut count = 0;
    while count < cut.count {
        let Some(line) = next_line(&mut reader, least, lasts.len()) else {
            return Err(wrong(cut, count));
        };
        lasts[line.row as usize] = Some(line.text);
        least = line.row + 1;
        count += 1;
    }
    if !reader.rest.is_empty() {
        return Err(wrong(cut, count));
    }
    Ok(())
}

// The next line, if its row is in these bounds.
fn next_line<'a>(reader: &mut Reader<'a>, least: u64, rows: usize) -> Option<Line<'a>>
    ensures { ReadsBetween least rows reader.old.rest.now reader.new.rest.now result }
{
    let line = reader.line()?;
    if line.row < least || line.row >= rows as u64 {
        return None;
    }
    Some(line)
}

// The fault of the line after that many.
fn wrong(cut: &Cut<'_>, count: u64) -> JournalFault
    requires { count + 1 < 2 ^ 64 }
    ensures { result ≡ WrongLine cut.now.number (count + 1) }
{
    JournalFault::WrongLine {
        cut: cut.number,
        line: count + 1,
    }
}
