//! The fold of a journal.
ghost use Rattle.std.specs.Prelude.{◌≡◌, ◌∷◌, ◌++◌, [], IfErr, IfOk, OnOk, flat_map, length};
ghost use Rattle.journal_text.specs.Faults.{IsJournalFault};
ghost use Rattle.journal_text.specs.Folds.{IsFold};
ghost use Rattle.journal_text.specs.Rooms.{IsCutFault, IsTable, ReadsCuts, fold_view, kept, table_text};

use crate::cut::holds_cut;
use crate::fault::JournalFault;
use crate::head::Head;
use crate::lines::put_lines;
use crate::reader::{Reader, front};
use crate::sum::Sum;
use crate::writer::{push_first_line, push_last_line};
use std::alloc::{AllocError, Global};

/// What a journal says.
#[derive(Drop)]
pub struct Folded {
    /// The export of the last line of each row.
    pub export: Vec<u8>,
    pub places: u64,
    pub rows: u64,
    pub print: Sum,
    /// How many whole cuts it has.
    pub cuts: u64,
    /// How many bytes its first line and its whole cuts are. What stands after them is a torn end.
    pub whole: usize,
    /// The sum of the last whole cut, or of the first line where there is none: what the next cut follows.
    pub sum: Sum,
}

/// The cuts that were read: how many, and the sum after them.
#[derive(Clone, Copy)]
struct Cuts {
    count: u64,
    sum: Sum,
}

/// The fold of a journal's text.
pub fn fold(alloc: Global, text: &[u8]) -> Result<Folded, JournalFault>
    ensures ok { IfOk result (λ folded. IsFold text.now (fold_view folded)) }
    ensures err { IfErr result (IsJournalFault text.now) }
{
    let mut reader = Reader { rest: text };
    let Some(head) = reader.head() else {
        return Err(JournalFault::NotAJournal);
    };
    let first = Sum::of(front(text, reader.rest));
    let mut lasts = Vec::from_elem(alloc, None, head.rows as usize)?;
    let table = lasts.as_mut_slice();
    let cuts = read_cuts(&mut reader, first, table)?;
    if holds_cut(reader.rest) {
        return Err(JournalFault::BrokenCut {
            cut: cuts.count + 1,
        });
    }
    Ok(Folded {
        export: export_of(alloc, &head, table)?,
        places: head.places,
        rows: head.rows,
        print: head.print,
        cuts: cuts.count,
        whole: text.len() - reader.rest.len(),
        sum: cuts.sum,
    })
}

// Reads the cuts that follow each other from the front, and puts their lines.
fn read_cuts<'a>(
    reader: &mut Reader<'a>,
    first: Sum,
    lasts: &mut [Option<&'a [u8]>],
) -> Result<Cuts, JournalFault>
    requires table { IsTable [] lasts.old }
    ensures ok { IfOk result (λ cuts. ReadsCuts (length lasts.old) first.digits reader.old.rest.now reader.new.rest.now
        lasts.new cuts) }
    ensures len { length lasts.new ≡ length lasts.old }
    ensures err { IfErr result (IsCutFault (length lasts.old) first.digits reader.old.rest.now) }
{
    let mut cuts = Cuts {
        count: 0,
        sum: first,
    };
    while let Some(cut) = reader.next_cut(cuts.count + 1, &cuts.sum) {
        put_lines(lasts, &cut)?;
        cuts = Cuts {
            count: cut.number,
            sum: cut.sum,
        };
    }
    Ok(cuts)
}

// The export of these lines.
fn export_of(alloc: Global, head: &Head, lasts: &[Option<&[u8]>]) -> Result<Vec<u8>, AllocError>
    ensures { IfOk result (λ text. text.items ≡ table_text head.now.places head.now.rows lasts.now) }
{
    let mut text = Vec::new(alloc);
    push_first_line(&mut text, head.places, head.rows)?;
    let mut count = 0;
    for last in lasts {
        count += push_kept(&mut text, last)?;
    }
    push_last_line(&mut text, count)?;
    Ok(text)
}

// The line of a row, if it has one, and how many these are.
fn push_kept(text: &mut Vec<u8>, last: &Option<&[u8]>) -> Result<u64, AllocError>
    ensures text { OnOk result (text.new.items ≡ text.old.items ++ flat_map (λ line. line) (kept (last.now ∷ []))) }
    ensures count { IfOk result (λ count. count ≡ length (kept (last.now ∷ []))) }
{
    let Some(line) = last else {
        return Ok(0);
    };
    text.extend_from_slice(line)?;
    Ok(1)
}
