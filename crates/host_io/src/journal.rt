// A journal in files.
ghost use Rattle.std.specs.Prelude.{◌≡◌, ◌≤◌, ◌⊎◌, IfSome, OnOk, OnErr};
ghost use Rattle.rail_io.specs.Faults.{Rose};
ghost use Rattle.rail_io.specs.Journals.{Opens, instead};
ghost use Rattle.host_io.specs.Opened.{file_journal_faults};

use crate::journal_files::JournalFiles;
use crate::opened::{opened_of, refused_of};
use crate::system_files::SystemFiles;
use rail_io::{Journal, JournalOpened};
use std::alloc::Global;
use std::fs::{File, Files};
use std::io;

/// A journal in files: a new text is kept before it takes the place of the old one, and nothing more is written once a
/// call has failed. It tells what its files tell.
#[derive(Drop)]
pub struct FileJournal<J: JournalFiles + Drop> {
    files: J,
    faults: u64,
}

impl<F: Files<File = File> + Drop> FileJournal<SystemFiles<F>> {
    /// A journal in these files of the system that isn't open, and hasn't failed.
    pub fn new(files: F, alloc: Global) -> Self
        ensures faults { file_journal_faults result ≡ 0 }
    {
        FileJournal {
            files: SystemFiles::new(files, alloc),
            faults: 0,
        }
    }
}

impl<J: JournalFiles + Drop> FileJournal<J> {
    /// A journal in these files that isn't open, and hasn't failed.
    pub fn over(files: J) -> Self
        ensures files { result ≡ record { files = files; faults = 0 } }
    {
        FileJournal { files, faults: 0 }
    }

    // A call that fails changes the count alone.
    fn fail(&mut self)
        ensures files { self.new.files ≡ self.old.files }
        ensures never_falls { file_journal_faults self.old ≤ file_journal_faults self.new }
        ensures rose { Rose (file_journal_faults self.old) (file_journal_faults self.new) }
    {
        self.faults = self.faults.saturating_add(1);
    }

    // Takes the files of the name, and reads the text. They stay taken where the text, or that there is none, is known.
    fn take_up(&mut self, alloc: Global, name: &str, room: u32) -> JournalOpened
        ensures opens { IfSome (J.kept self.old.files) (λ kept. Opens kept room result) }
        ensures kept { J.kept self.new.files ≡ J.kept self.old.files }
        ensures same { file_journal_faults self.new ≡ file_journal_faults self.old }
    {
        match self.files.hold(name) {
            Ok(true) => {}
            Ok(false) => return JournalOpened::Locked,
            Err(error) => return refused_of(error.kind()),
        }
        let opened = opened_of(self.files.read(alloc, room), room);
        if !matches!(opened, JournalOpened::Text(_) | JournalOpened::Missing) {
            self.files.let_go();
        }
        opened
    }

    // Puts a text that is kept in the place of the old one.
    fn put(&mut self, text: &[u8]) -> io::Result<()>
        ensures put { OnOk result (J.kept self.new.files ≡ instead (J.kept self.old.files) text.now) }
        ensures failed { OnErr result ((J.kept self.new.files ≡ J.kept self.old.files)
            ⊎ (J.kept self.new.files ≡ instead (J.kept self.old.files) text.now)) }
        ensures same { file_journal_faults self.new ≡ file_journal_faults self.old }
    {
        self.files.write_new(text)?;
        self.files.put_new()
    }
}

impl<J: JournalFiles + Drop> Journal for FileJournal<J> {
    ghost told = { λ j. J.kept j.files };

    ghost faults = { file_journal_faults };

    fn open(&mut self, alloc: Global, name: &str, room: u32) -> JournalOpened {
        let opened = self.take_up(alloc, name, room);
        if let JournalOpened::Failed = &opened {
            self.fail();
        }
        opened
    }

    fn replace(&mut self, text: &[u8]) -> bool {
        if self.faults > 0 {
            self.fail();
            return false;
        }
        if self.put(text).is_err() {
            self.fail();
            return false;
        }
        true
    }

    fn append(&mut self, piece: &[u8]) -> bool {
        if self.faults > 0 {
            self.fail();
            return false;
        }
        if self.files.append(piece).is_err() {
            self.fail();
            return false;
        }
        true
    }
}
