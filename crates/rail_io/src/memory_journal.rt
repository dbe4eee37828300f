// A journal over memory.
ghost use Rattle.std.specs.Prelude.{◌≡◌, ◌≤◌, Contains, Some, true, false};
ghost use Rattle.rail_io.specs.Faults.{Rose};
ghost use Rattle.rail_io.specs.Memory.{journal_kept, journal_faults, journal_calls, journal_fails, IsOneCallMore};

use crate::{Journal, JournalOpened};
use std::alloc::Global;

/// Keeps its bytes in memory, and is one that isn't there where it has none. `fails` lists the calls that are to fail,
/// counted from 1. An append that fails keeps a front of its piece, maybe none of it. Where there is no memory to grow,
/// a call may fail too.
#[derive(Drop)]
pub struct MemoryJournal {
    alloc: Global,
    bytes: Vec<u8>,
    fails: Vec<u64>,
    calls: u64,
    faults: u64,
}

impl MemoryJournal {
    ghost use Rattle.std.specs.Prelude.{◌<◌, ◌↔◌, ◌⊎◌};

    /// A journal that keeps these bytes, whose listed calls fail.
    pub fn new(alloc: Global, bytes: Vec<u8>, fails: Vec<u64>) -> Self
        ensures kept { journal_kept result ≡ bytes.items }
        ensures faults { journal_faults result ≡ 0 }
        ensures calls { journal_calls result ≡ 0 }
        ensures fails { journal_fails result ≡ fails.items }
    {
        MemoryJournal {
            alloc,
            bytes,
            fails,
            calls: 0,
            faults: 0,
        }
    }

    /// The bytes that are kept.
    pub fn kept(&self) -> &[u8]
        ensures { result.now ≡ journal_kept self.now }
    {
        &self.bytes
    }

    // One call more, and whether it is to fail.
    fn call(&mut self) -> bool
        ensures kept { journal_kept self.new ≡ journal_kept self.old }
        ensures faults { journal_faults self.new ≡ journal_faults self.old }
        ensures calls { IsOneCallMore (journal_calls self.old) (journal_calls self.new) }
        ensures fails { journal_fails self.new ≡ journal_fails self.old }
        ensures listed { (result ≡ true) ↔ Contains (journal_fails self.old) (journal_calls self.new) }
    {
        self.calls = self.calls.saturating_add(1);
        self.fails.contains(&self.calls)
    }

    // A call that fails changes the count alone.
    fn fail(&mut self)
        ensures kept { journal_kept self.new ≡ journal_kept self.old }
        ensures rose { Rose (journal_faults self.old) (journal_faults self.new) }
        ensures never_falls { journal_faults self.old ≤ journal_faults self.new }
        ensures calls { journal_calls self.new ≡ journal_calls self.old }
        ensures fails { journal_fails self.new ≡ journal_fails self.old }
    {
        self.faults = self.faults.saturating_add(1);
    }
}

impl Journal for MemoryJournal {
    ghost use Rattle.std.specs.Prelude.{◌↔◌, ◌<◌};
    ghost use Rattle.rail_io.specs.declared.journal.JournalOpened.TheVariants.{Failed};
    ghost use Rattle.rail_io.specs.Journals.{Opens, Replaces, Appends};

    ghost told = { λ j. Some j.bytes.items };

    ghost faults = { λ j. j.faults };

    fn open(&mut self, alloc: Global, name: &str, room: u32) -> JournalOpened
        ensures opens { Opens (journal_kept self.old) room result }
        ensures same { Some (journal_kept self.new) ≡ Some (journal_kept self.old) }
        ensures never_falls { journal_faults self.old ≤ journal_faults self.new }
        ensures cause { result ≡ Failed → Rose (journal_faults self.old) (journal_faults self.new) }
        ensures steady { (result ≡ Failed → ⊥) → journal_faults self.new ≡ journal_faults self.old }
        ensures calls { IsOneCallMore (journal_calls self.old) (journal_calls self.new) }
        ensures listed { (result ≡ Failed) ↔ Contains (journal_fails self.old) (journal_calls self.new) }
        ensures fails { journal_fails self.new ≡ journal_fails self.old }
    {
        let _ = name;
        if self.call() {
            self.fail();
            return JournalOpened::Failed;
        }
        if self.bytes.is_empty() {
            return JournalOpened::Missing;
        }
        if self.bytes.len() > room as usize {
            return JournalOpened::TooLarge;
        }
        match self.bytes.to_vec(alloc) {
            Ok(text) => JournalOpened::Text(text),
            Err(_) => JournalOpened::NoMemory,
        }
    }

    fn replace(&mut self, text: &[u8]) -> bool
        ensures replaces { Replaces (Some (journal_kept self.old)) (Some (journal_kept self.new)) text.now result }
        ensures spent { 0 < journal_faults self.old
            → (result ≡ false) × (Some (journal_kept self.new) ≡ Some (journal_kept self.old)) }
        ensures never_falls { journal_faults self.old ≤ journal_faults self.new }
        ensures cause { result ≡ false → Rose (journal_faults self.old) (journal_faults self.new) }
        ensures steady { result ≡ true → journal_faults self.new ≡ journal_faults self.old }
        ensures calls { IsOneCallMore (journal_calls self.old) (journal_calls self.new) }
        ensures listed { Contains (journal_fails self.old) (journal_calls self.new) → result ≡ false }
        ensures fails { journal_fails self.new ≡ journal_fails self.old }
    {
        if self.call() || self.faults > 0 {
            self.fail();
            return false;
        }
        let Ok(bytes) = text.to_vec(self.alloc) else {
            self.fail();
            return false;
        };
        self.bytes = bytes;
        true
    }

    fn append(&mut self, piece: &[u8]) -> bool
        ensures appends { Appends (Some (journal_kept self.old)) (Some (journal_kept self.new)) piece.now result }
        ensures spent { 0 < journal_faults self.old
            → (result ≡ false) × (Some (journal_kept self.new) ≡ Some (journal_kept self.old)) }
        ensures never_falls { journal_faults self.old ≤ journal_faults self.new }
        ensures cause { result ≡ false → Rose (journal_faults self.old) (journal_faults self.new) }
        ensures steady { result ≡ true → journal_faults self.new ≡ journal_faults self.old }
        ensures calls { IsOneCallMore (journal_calls self.old) (journal_calls self.new) }
        ensures listed { Contains (journal_fails self.old) (journal_calls self.new) → result ≡ false }
        ensures fails { journal_fails self.new ≡ journal_fails self.old }
    {
        let listed = self.call();
        if self.faults > 0 {
            self.fail();
            return false;
        }
        let goes = if listed {
            &piece[..piece.len() / 2]
        } else {
            piece
        };
        let went = self.bytes.extend_from_slice(goes).is_ok();
        if listed || !went {
            self.fail();
            return false;
        }
        true
    }
}
