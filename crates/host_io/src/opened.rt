// What the system's answers mean where a journal is opened.
ghost use Rattle.std.specs.Prelude.{◌≡◌};
ghost use Rattle.host_io.specs.Opened.{opened_by, refused_by};

use rail_io::JournalOpened;
use std::io;
use std::io::ErrorKind;

/// What it means that the journal can't be opened or read, by the kind of error.
pub(crate) fn refused_of(kind: ErrorKind) -> JournalOpened
    ensures { result ≡ refused_by kind }
{
    match kind {
        ErrorKind::OutOfMemory => JournalOpened::NoMemory,
        _ => JournalOpened::Failed,
    }
}

/// What a read of the journal means, which is one byte longer than there is room for where there are more: None says
/// that there is no journal.
pub(crate) fn opened_of(answer: io::Result<Option<Vec<u8>>>, room: u32) -> JournalOpened
    ensures { result ≡ opened_by room answer }
{
    match answer {
        Ok(Some(text)) if text.len() <= room as usize => JournalOpened::Text(text),
        Ok(Some(_)) => JournalOpened::TooLarge,
        Ok(None) => JournalOpened::Missing,
        Err(error) => refused_of(error.kind()),
    }
}
