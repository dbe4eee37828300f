//! The outside of the program as traits: where bytes come from, where they go, files by name, moments, and ticks.
//!
//! Sources, sinks, shelves and journals say what they hold, where they tell it, and count their failures. A call of one
//! answers `Failed`, or false, only where that count rose in it, or stands at its last value. The program above speaks
//! of the outside by these traits alone, so that its clauses are the same over a socket as over memory; over a device
//! that tells nothing they name no bytes.
//!
//! A journal has its places here: a clock is told when a command begins and when it has its answer, and a sink after
//! which cut of the bookings its bytes may leave. A `Keeper` says when a cut is kept.
//!
//! `BytesSource`, `VecSink`, `MapShelf` and `MemoryJournal` hold their bytes in memory and tell them; each has a list of
//! the calls that are to fail. `ScriptClock` and `ListClock` tell their readings, and `CountTicker` ticks a given number
//! of times. `ReaderSource` and `WriterSink` stand before a reader and a writer of std, as standard input and output,
//! and `FileShelf` before the system's files; they tell nothing.
//!
//! `write_both` writes two pieces, one after the other; a sink that has no better way makes two writes of it.
//! `pulled_of`, `pushed_of` and `fetched_of` say what an answer of the system means, and are exact. Over a reader or a
//! writer that tells its bytes, `ReaderSource` and `WriterSink` hand on just these (`hands_on`). The calls of the system
//! themselves are trusted, and that a `FileShelf` reads the file of the name that it is given.
#![tactic(auto)]

mod answers;
mod bell;
mod clock;
mod file_shelf;
mod journal;
mod keeper;
mod memory_clock;
mod memory_journal;
mod memory_shelf;
mod memory_sink;
mod memory_source;
mod shelf;
mod sink;
mod source;
mod standard;
mod ticker;

pub use answers::pushed_of;
pub use bell::{Bell, NoBell};
pub use clock::{Clock, Reach, RouteName};
pub use file_shelf::{FileShelf, read_from};
pub use journal::{Journal, JournalOpened};
pub use keeper::Keeper;
pub use memory_clock::{ListClock, ScriptClock};
pub use memory_journal::MemoryJournal;
pub use memory_shelf::MapShelf;
pub use memory_sink::VecSink;
pub use memory_source::BytesSource;
pub use shelf::{Fetched, Shelf};
pub use sink::{Pushed, PushedBoth, Sink};
pub use source::{Pulled, Source};
pub use standard::{RETRIES, ReaderSource, WriterSink};
pub use ticker::{CountTicker, Ticker};
