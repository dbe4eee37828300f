// What is made of names and of the system's answers where a journal's files are used.
ghost use Rattle.std.specs.Prelude.{◌≡◌, ◌+◌, IfOk, IfSome, take};
ghost use Rattle.host_io.specs.Opened.{locked_by, present_by};
ghost use Rattle.std.specs.Path.{HasNoSlash, path_add_extension, path_buf_bytes};

use std::alloc::Global;
use std::fs::{File, TryLockError};
use std::io;
use std::io::{ErrorKind, Read};
use std::path::PathBuf;

/// The path with this ending after a dot.
pub(crate) fn beside(alloc: Global, path: &str, ending: &str) -> io::Result<PathBuf>
    requires { HasNoSlash ending.now }
    ensures { IfOk result (λ other. path_buf_bytes other ≡ path_add_extension path.now ending.now) }
{
    let mut other = PathBuf::from_str(alloc, path)?;
    if other.add_extension(ending)? {
        Ok(other)
    } else {
        Err(io::Error::from(ErrorKind::InvalidInput))
    }
}

/// Whether a file is locked that was to be: another process may have locked it.
pub(crate) fn is_locked(answer: Result<(), TryLockError>) -> io::Result<bool>
    ensures { result ≡ locked_by answer }
{
    match answer {
        Ok(()) => Ok(true),
        Err(TryLockError::WouldBlock) => Ok(false),
        Err(TryLockError::Error(error)) => Err(error),
    }
}

/// A file that may be missing: None where it is.
pub(crate) fn unless_missing(answer: io::Result<File>) -> io::Result<Option<File>>
    ensures { result ≡ present_by answer }
{
    match answer {
        Ok(file) => Ok(Some(file)),
        Err(error) if error.kind() == ErrorKind::NotFound => Ok(None),
        Err(error) => Err(error),
    }
}

/// All that the reader gives, or its first bytes, one more than there is room for.
pub(crate) fn read_text<R: Read + Drop>(text: R, alloc: Global, room: u32) -> io::Result<Vec<u8>>
    ensures { IfSome (R.remaining text) (λ bytes. IfOk result (λ read. read.items ≡ take (room + 1) bytes)) }
{
    let mut content = Vec::new(alloc);
    text.take(u64::from(room) + 1).read_to_end(&mut content)?;
    Ok(content)
}
