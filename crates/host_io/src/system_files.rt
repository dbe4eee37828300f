// The files of the system as those of a journal. They tell no content.
ghost use Rattle.std.specs.Prelude.{◌≡◌, None};

use crate::file_answers::{beside, is_locked, read_text, unless_missing};
use crate::journal_files::JournalFiles;
use std::alloc::Global;
use std::fs::{File, Files, OpenOptions};
use std::io::{ErrorKind, Write};
use std::os::fd::AsRawFd;
use std::path::PathBuf;
use std::{fs, io};

/// The numbers of standard input, output and error: no file of a journal may have one, also where the process was
/// started without them, since notes would be written into it.
const STANDARD_FILES: i32 = 3;

/// That this process has a journal for itself alone.
#[derive(Drop)]
struct Held {
    /// The path of the journal's text.
    path: PathBuf,
    /// A file of its own next to the journal, which is locked, and is never renamed nor removed. So no two processes
    /// can have locked different files of one name, as they could if the lock lay on the text, whose name other texts
    /// take.
    lock: File,
}

/// The files of one journal in the system's. Beside its text stands a file for its lock, with `.lock` after the
/// journal's name, and a new text is written under that name with `.new`.
#[derive(Drop)]
pub struct SystemFiles<F: Files<File = File> + Drop> {
    files: F,
    alloc: Global,
    held: Option<Held>,
    /// The journal's text, where one is held that is there.
    text: Option<File>,
    /// The new text, by its name and as a file, where one is written that hasn't taken the place of the old one.
    fresh: Option<(PathBuf, File)>,
}

// The path that a name leads to. Where the name is a link, the path is that of its file, so that a new text of the
// journal takes the place of the old one and not that of the link.
fn path_of<F: Files>(files: &F, alloc: Global, name: &str) -> io::Result<PathBuf> {
    match files.canonicalize(alloc, name) {
        Err(error) if error.kind() == ErrorKind::NotFound => new_path(files, alloc, name),
        found => found,
    }
}

// The path of a journal that isn't there yet. A link to a file that isn't there is refused: the new text would take the
// place of the link, and the lock would be that of the link.
fn new_path<F: Files>(files: &F, alloc: Global, name: &str) -> io::Result<PathBuf> {
    match files.symlink_metadata(name) {
        Ok(_) => Err(io::Error::from(ErrorKind::InvalidInput)),
        Err(_) => Ok(PathBuf::from_str(alloc, name)?),
    }
}

// The file that is locked while the journal of this path is held, and whether it is locked now.
fn lock_of<F: Files<File = File>>(
    files: &F,
    alloc: Global,
    path: &str,
) -> io::Result<(File, bool)> {
    let name = beside(alloc, path, "lock")?;
    let lock = OpenOptions::new()
        .write(true)
        .create(true)
        .open(files, &name)?;
    if lock.as_raw_fd() < STANDARD_FILES {
        return Err(io::Error::from(ErrorKind::Unsupported));
    }
    let locked = is_locked(lock.try_lock())?;
    Ok((lock, locked))
}

// Keeps the names of the folder that the path lies in.
fn sync_folder<F: Files<File = File>>(files: &F, path: &PathBuf) -> io::Result<()> {
    let folder = match path.parent() {
        Some(folder) if !folder.as_str().is_empty() => folder.as_str(),
        _ => ".",
    };
    fs::open(files, folder)?.sync_all()
}

// A new text for the path, written next to it and kept there, which may be used by those who may use the old one.
fn new_text<F: Files<File = File>>(
    files: &F,
    name: &PathBuf,
    old: Option<&File>,
    bytes: &[u8],
) -> io::Result<File> {
    let mut text = OpenOptions::new()
        .append(true)
        .create(true)
        .open(files, name)?;
    text.set_len(0)?;
    if let Some(old) = old {
        text.set_permissions(old.metadata()?.permissions())?;
    }
    text.write_all(bytes)?;
    text.sync_all()?;
    Ok(text)
}

// What a call comes to where no journal is held.
fn not_held() -> io::Error {
    io::Error::from(ErrorKind::NotConnected)
}

impl<F: Files<File = File> + Drop> SystemFiles<F> {
    /// The files of no journal yet.
    pub fn new(files: F, alloc: Global) -> Self
        ensures held { result.held ≡ None }
        ensures text { result.text ≡ None }
    {
        SystemFiles {
            files,
            alloc,
            held: None,
            text: None,
            fresh: None,
        }
    }
}

impl<F: Files<File = File> + Drop> JournalFiles for SystemFiles<F> {
    ghost kept = { λ _. None };

    ghost fresh = { λ _. None };

    fn hold(&mut self, name: &str) -> io::Result<bool> {
        self.let_go();
        let path = path_of(&self.files, self.alloc, name)?;
        let (lock, locked) = lock_of(&self.files, self.alloc, path.as_str())?;
        if locked {
            let text = OpenOptions::new()
                .read(true)
                .append(true)
                .open(&self.files, &path);
            self.text = unless_missing(text)?;
            self.held = Some(Held { path, lock });
        }
        Ok(locked)
    }

    fn let_go(&mut self) {
        self.held = None;
        self.text = None;
        self.fresh = None;
    }

    fn read(&mut self, alloc: Global, room: u32) -> io::Result<Option<Vec<u8>>> {
        match &self.text {
            Some(text) => Ok(Some(read_text(text, alloc, room)?)),
            None => Ok(None),
        }
    }

    fn write_new(&mut self, bytes: &[u8]) -> io::Result<()> {
        let Some(held) = &self.held else {
            return Err(not_held());
        };
        let name = beside(self.alloc, held.path.as_str(), "new")?;
        let text = new_text(&self.files, &name, self.text.as_ref(), bytes)?;
        self.fresh = Some((name, text));
        Ok(())
    }

    fn put_new(&mut self) -> io::Result<()> {
        let (Some(held), Some((name, text))) = (&self.held, self.fresh.take()) else {
            return Err(not_held());
        };
        fs::rename(&self.files, &name, &held.path)?;
        self.text = Some(text);
        sync_folder(&self.files, &held.path)
    }

    fn append(&mut self, piece: &[u8]) -> io::Result<()> {
        let Some(text) = &mut self.text else {
            return Err(not_held());
        };
        text.write_all(piece)?;
        text.sync_data()
    }
}
