// The files of the system as a shelf. It tells no content.
ghost use Rattle.std.specs.Prelude.{◌≡◌, ◌+◌, None, IfSome, IfOk, take};

use crate::answers::fetched_of;
use crate::{Fetched, Shelf};
use std::alloc::Global;
use std::io::Read;
use std::{fs, io};

/// The system's files, by their paths.
#[derive(Drop)]
pub struct FileShelf<F: fs::Files + Drop> {
    files: F,
    faults: u64,
    misses: u64,
}

impl<F: fs::Files + Drop> FileShelf<F> {
    ghost use Rattle.rail_io.specs.Memory.{file_faults, file_misses};

    /// A shelf of these files, that hasn't failed or missed a file.
    pub fn new(files: F) -> Self
        ensures faults { file_faults result ≡ 0 }
        ensures misses { file_misses result ≡ 0 }
    {
        FileShelf {
            files,
            faults: 0,
            misses: 0,
        }
    }
}

/// All that a reader has, or its first bytes, one more than there is room for.
pub fn read_from<R: Read + Drop>(reader: R, alloc: Global, room: u32) -> io::Result<Vec<u8>>
    ensures bytes { IfOk result (λ content. IfSome (R.remaining reader) (λ left.
        content.items ≡ take (room + 1) left)) }
{
    let mut content = Vec::new(alloc);
    reader.take(u64::from(room) + 1).read_to_end(&mut content)?;
    Ok(content)
}

// The content of a file, or its first bytes, one more than there is room for.
fn read_file<F: fs::Files>(files: &F, alloc: Global, name: &str, room: u32) -> io::Result<Vec<u8>> {
    read_from(fs::open(files, name)?, alloc, room)
}

impl<F: fs::Files + Drop> Shelf for FileShelf<F> {
    ghost told = { λ _. None };

    ghost faults = { λ s. s.faults };

    ghost misses = { λ s. s.misses };

    fn fetch(&mut self, alloc: Global, name: &str, room: u32) -> Fetched {
        let fetched = fetched_of(read_file(&self.files, alloc, name, room), room);
        match &fetched {
            Fetched::Got(_) | Fetched::NoMemory => {}
            Fetched::Missing | Fetched::TooLarge => self.misses = self.misses.saturating_add(1),
            Fetched::Failed => self.faults = self.faults.saturating_add(1),
        }
        fetched
    }
}
