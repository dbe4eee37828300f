// What the adapters make of the system's answers.
ghost use Rattle.std.specs.Prelude.{◌≡◌};
ghost use Rattle.rail_io.specs.Answers.{pulled_by, pushed_by, fetched_by, refusal_by};

use crate::{Fetched, Pulled, Pushed};
use std::io;
use std::io::ErrorKind;

/// What a read means: that many bytes came, or, where it read none, no byte is to come.
pub(crate) fn pulled_of(answer: io::Result<usize>) -> Pulled
    ensures { result ≡ pulled_by answer }
{
    match answer {
        Ok(0) => Pulled::End,
        Ok(count) => Pulled::Got(count),
        Err(_) => Pulled::Failed,
    }
}

/// What a write means: that many bytes were taken. One that takes none counts as failed.
pub fn pushed_of(answer: io::Result<usize>) -> Pushed
    ensures { result ≡ pushed_by answer }
{
    match answer {
        Ok(0) => Pushed::Failed,
        Ok(count) => Pushed::Took(count),
        Err(_) => Pushed::Failed,
    }
}

/// What the bytes of a file mean, of which one more was read than there is room for.
pub(crate) fn fetched_of(answer: io::Result<Vec<u8>>, room: u32) -> Fetched
    ensures { result ≡ fetched_by room answer }
{
    match answer {
        Ok(content) if content.len() <= room as usize => Fetched::Got(content),
        Ok(_) => Fetched::TooLarge,
        Err(error) => refusal_of(error.kind()),
    }
}

// What it means that a file can't be read, by the kind of error.
fn refusal_of(kind: ErrorKind) -> Fetched
    ensures { result ≡ refusal_by kind }
{
    match kind {
        ErrorKind::NotFound => Fetched::Missing,
        ErrorKind::OutOfMemory => Fetched::NoMemory,
        _ => Fetched::Failed,
    }
}
