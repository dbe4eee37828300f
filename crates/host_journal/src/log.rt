// A journal that grows by cuts.
ghost use Rattle.std.specs.Prelude.{◌≡◌, ◌++◌, ◌<◌, ◌^◌, ◌+◌, IfOk, IfSome, OnOk, IsSomeAnd, true};
ghost use Rattle.journal_text.specs.Texts.{cut_text, own_sum};
ghost use Rattle.host_journal.specs.Logs.{BeginsAnew, GrowsBy, KeepsLines, PutsLines, cut_with, first_cut, log_end};
ghost use Rattle.host_journal.specs.Logs.{whole_text};

use crate::looked::Looked;
use answer_gate::{Receipt, Taken};
use journal_text::{Sum, push_cut, push_head};
use rail_io::Journal;
use std::alloc::{AllocError, Global};

/// From how many bytes on a journal may be written anew, and how many more make that worth while in the end.
const LONG: usize = 16_777_216;

/// From how many bytes on a journal of twice what its bookings take is written anew.
const HALF: usize = 134_217_728;

/// From how many bytes on any that is longer by `LONG` than what its bookings take is.
const MOST: usize = 201_326_592;

/// How many bytes of a cut aren't lines, at most: its first line and its sum.
const CUT_ROOM: usize = 256;

/// What the first line of a journal says.
#[derive(Clone, Copy)]
pub struct Head {
    pub places: u32,
    pub rows: u32,
    pub print: Sum,
}

/// Lines of rows, and how many.
#[derive(Drop)]
pub struct Lines {
    pub text: Vec<u8>,
    pub count: u64,
}

/// A journal, and where it has come to.
#[derive(Drop)]
pub struct Log<J> {
    journal: J,
    head: Head,
    /// The number of the last cut, and its sum.
    number: u64,
    sum: Sum,
    /// How many bytes it has, and how many it had when it was last written anew.
    size: usize,
    least: usize,
}

/// A receipt for a cut that the journal keeps. Only a log makes one.
#[derive(Drop)]
pub struct Kept {
    /// The number of the cut.
    number: u64,
}

impl Receipt for Kept {
    ghost use Rattle.std.specs.Prelude.{ℕ};

    ghost kept = { λ _. Unit {0} };

    ghost of = { λ k. k.number };
}

/// A text, and its sum or that of its last cut.
#[derive(Drop)]
struct Summed {
    text: Vec<u8>,
    sum: Sum,
}

impl<J: Journal> Log<J> {
    /// The log of a journal that is to be written anew first.
    pub fn of(journal: J, head: Head) -> Self
        ensures journal { result.journal ≡ journal }
        ensures head { result.head ≡ head }
    {
        Log {
            journal,
            head,
            number: 0,
            sum: head.print,
            size: 0,
            least: 0,
        }
    }

    /// Whether the journal is to be written anew. It is to be long and have eight times what its bookings take; or
    /// twice that, from `HALF` bytes on; or it is to have come to `MOST` bytes, and grown by `LONG`.
    pub fn is_grown(&self) -> bool {
        let more = self.size.saturating_sub(self.least);
        self.size >= LONG && self.size / 8 >= self.least
            || self.size >= HALF && self.size / 2 >= self.least
            || self.size >= MOST && more >= LONG
    }

    /// Has a cut of these lines kept: as the one of a new journal, or as the one that follows. One without lines
    /// is to be kept at once, where the journal isn't written anew. The receipt is of the cut that was taken.
    pub fn keep(
        &mut self,
        alloc: Global,
        taken: &Taken,
        looked: Looked,
        is_whole: bool,
    ) -> Option<Kept>
        requires cut { looked.cut ≡ taken.now.number }
        ensures head { self.new.head ≡ self.old.head }
        ensures kept { IfSome result (λ _. KeepsLines is_whole (J.told self.old.journal) (J.told self.new.journal)
            self.old.head (log_end self.old) looked.lines (log_end self.new)) }
        ensures puts { IfSome result (λ _. PutsLines J.puts J.adds is_whole self.old.journal self.new.journal
            self.old.head (log_end self.old) looked.lines) }
        ensures of { IfSome result (λ kept. kept.number ≡ taken.now.number) }
    {
        let lines = looked.into_lines();
        if !self.has_kept(alloc, &lines, is_whole) {
            return None;
        }
        Some(Kept {
            number: taken.number(),
        })
    }

    // The same, and whether it is kept now.
    fn has_kept(&mut self, alloc: Global, lines: &Lines, is_whole: bool) -> bool
        ensures head { self.new.head ≡ self.old.head }
        ensures kept { result ≡ true → KeepsLines is_whole (J.told self.old.journal) (J.told self.new.journal)
            self.old.head (log_end self.old) lines.now (log_end self.new) }
        ensures puts { result ≡ true → PutsLines J.puts J.adds is_whole self.old.journal self.new.journal
            self.old.head (log_end self.old) lines.now }
    {
        if is_whole {
            return self.begin(alloc, lines);
        }
        lines.count == 0 || self.append(alloc, lines)
    }

    /// Puts a journal in the place of all that is kept, whose one cut has these lines, and answers true only where it
    /// is kept now.
    pub fn begin(&mut self, alloc: Global, lines: &Lines) -> bool
        ensures head { self.new.head ≡ self.old.head }
        ensures begins { BeginsAnew (J.told self.old.journal) (J.told self.new.journal) self.old.head lines.now
            (log_end self.new) result }
        ensures puts { result ≡ true → J.puts self.old.journal (whole_text self.old.head lines.now) self.new.journal }
    {
        let Ok(Summed { text, sum }) = whole_journal(alloc, &self.head, lines) else {
            return false;
        };
        self.number = 1;
        self.sum = sum;
        self.size = text.len();
        self.least = text.len();
        self.journal.replace(text.as_slice())
    }

    /// Appends the cut of these lines that follows, and answers true only where it is kept now.
    pub fn append(&mut self, alloc: Global, lines: &Lines) -> bool
        ensures head { self.new.head ≡ self.old.head }
        ensures grows { GrowsBy (J.told self.old.journal) (J.told self.new.journal)
            (log_end self.old) lines.now
            (log_end self.new) result }
        ensures adds { result ≡ true → J.adds self.old.journal
            (cut_text (cut_with ((log_end self.old).number + 1) (log_end self.old).sum lines.now)) self.new.journal }
    {
        let Some(number) = self.number.checked_add(1) else {
            return false;
        };
        let Ok(Summed { text, sum }) = cut_of(alloc, number, &self.sum, lines) else {
            return false;
        };
        self.number = number;
        self.sum = sum;
        self.size = self.size.saturating_add(text.len());
        self.journal.append(text.as_slice())
    }
}

// The text of a journal with one cut of these lines, and the sum of that.
fn whole_journal(alloc: Global, head: &Head, lines: &Lines) -> Result<Summed, AllocError>
    ensures text { IfOk result (λ s. s.text.items ≡ whole_text head.now lines.now) }
    ensures sum { IfOk result (λ s. s.sum.digits ≡ own_sum (first_cut head.now lines.now)) }
{
    let mut text = Vec::new(alloc);
    let before = push_head(&mut text, head.places, head.rows, &head.print)?;
    let sum = push_cut(&mut text, 1, &before, lines.count, lines.text.as_slice())?;
    Ok(Summed { text, sum })
}

// The text of the cut of these lines with this number, which follows one with this sum; and its own sum.
fn cut_of(alloc: Global, number: u64, before: &Sum, lines: &Lines) -> Result<Summed, AllocError>
    ensures text { IfOk result (λ s. s.text.items ≡ cut_text (cut_with number before.now.digits lines.now)) }
    ensures sum { IfOk result (λ s. s.sum.digits ≡ own_sum (cut_with number before.now.digits lines.now)) }
{
    let mut text = Vec::with_capacity(alloc, lines.text.len().saturating_add(CUT_ROOM))?;
    let sum = push_cut(
        &mut text,
        number,
        before,
        lines.count,
        lines.text.as_slice(),
    )?;
    Ok(Summed { text, sum })
}
