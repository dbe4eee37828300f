// The files of a journal over memory.
ghost use Rattle.std.specs.Prelude.{◌≡◌, [], Some};

use crate::journal_files::JournalFiles;
use std::alloc::Global;
use std::io;
use std::io::ErrorKind;

/// The files of one journal over memory, which nobody else takes. A text of no bytes isn't there. `fails` lists the
/// calls that are to fail, counted from 1. An append that is to fail keeps the first half of its piece.
#[derive(Drop)]
pub struct MemoryFiles {
    alloc: Global,
    kept: Vec<u8>,
    fresh: Vec<u8>,
    fails: Vec<u64>,
    calls: u64,
}

impl MemoryFiles {
    /// Files whose text has these bytes, and whose listed calls fail.
    pub fn new(alloc: Global, kept: Vec<u8>, fails: Vec<u64>) -> Self
        ensures kept { result.kept.items ≡ kept.items }
        ensures fresh { result.fresh.items ≡ [] }
    {
        MemoryFiles {
            alloc,
            kept,
            fresh: Vec::new(alloc),
            fails,
            calls: 0,
        }
    }

    /// What the text has.
    pub fn kept(&self) -> &[u8]
        ensures { result.now ≡ self.now.kept.items }
    {
        &self.kept
    }

    // One call more, which may be one that is to fail.
    fn call(&mut self) -> io::Result<()>
        ensures kept { self.new.kept ≡ self.old.kept }
        ensures fresh { self.new.fresh ≡ self.old.fresh }
    {
        self.calls = self.calls.saturating_add(1);
        if self.fails.contains(&self.calls) {
            return Err(io::Error::from(ErrorKind::Other));
        }
        Ok(())
    }
}

impl JournalFiles for MemoryFiles {
    ghost kept = { λ f. Some f.kept.items };

    ghost fresh = { λ f. Some f.fresh.items };

    fn hold(&mut self, name: &str) -> io::Result<bool> {
        let _ = name;
        self.call()?;
        Ok(true)
    }

    fn let_go(&mut self) {}

    fn read(&mut self, alloc: Global, room: u32) -> io::Result<Option<Vec<u8>>> {
        self.call()?;
        if self.kept.is_empty() {
            return Ok(None);
        }
        let count = self.kept.len().min(room as usize + 1);
        Ok(Some(self.kept[..count].to_vec(alloc)?))
    }

    fn write_new(&mut self, bytes: &[u8]) -> io::Result<()> {
        self.call()?;
        self.fresh = bytes.to_vec(self.alloc)?;
        Ok(())
    }

    fn put_new(&mut self) -> io::Result<()> {
        self.call()?;
        self.kept = self.fresh.to_vec(self.alloc)?;
        Ok(())
    }

    fn append(&mut self, piece: &[u8]) -> io::Result<()> {
        if self.call().is_err() {
            self.kept.extend_from_slice(&piece[..piece.len() / 2])?;
            return Err(io::Error::from(ErrorKind::Other));
        }
        self.kept.extend_from_slice(piece)?;
        Ok(())
    }
}
