// How a command ends: its status and its note.
ghost use Rattle.std.specs.Prelude.{◌≡◌, ◌≤◌, ◌++◌};
ghost use Rattle.host_catalogue.specs.Notes.{place_text};
ghost use Rattle.host_catalogue.specs.Ends.{end_of, note_of, status_of};
ghost use Rattle.host_catalogue.specs.Noted.{TakesNote};

use crate::noting::note_parts;
use crate::{JournalRefusal, LoadFault, NoteText};
use rail_io::Sink;
use session_loop::ConnEnd;

/// How a command ended. Each variant has one status and one note.
#[derive(Drop)]
pub enum CommandEnd {
    /// 0: all that was asked for is done.
    Done,
    /// 1: there is no catalogue, or not the export that its books are to open with; 3 where the shelf failed, and 5
    /// where there was no memory for them.
    NotLoaded(LoadFault),
    /// 1: the journal is kept by another host.
    JournalLocked,
    /// 1: the journal is there, and an export is named that the books are to begin with.
    JournalExists,
    /// 1: the text of the journal is refused; 5 where there was no memory for it.
    JournalRefused(JournalRefusal),
    /// 2: the words are refused.
    WordsRefused,
    /// 3: the input or the listener failed.
    ReadFault,
    /// 3: the journal's file couldn't be opened, or couldn't be put in its place.
    JournalFailed,
    /// 4: the output failed.
    WriteFault,
    /// 4: the journal failed while it was kept.
    JournalLost,
    /// 5: there was no memory.
    NoMemory,
    /// 6: the input ended inside a request.
    InputCut,
    /// 6: what stood in a request's place was refused.
    InputRefused,
}

impl CommandEnd {
    /// How a command ends that serves one connection, by the end of that.
    pub fn of(end: ConnEnd) -> CommandEnd
        ensures { result ≡ end_of end }
    {
        match end {
            ConnEnd::Done => CommandEnd::Done,
            ConnEnd::Cut => CommandEnd::InputCut,
            ConnEnd::Refused(_) => CommandEnd::InputRefused,
            ConnEnd::ReadFault => CommandEnd::ReadFault,
            ConnEnd::WriteFault => CommandEnd::WriteFault,
            ConnEnd::NoMemory => CommandEnd::NoMemory,
        }
    }

    /// Its status.
    pub fn status(&self) -> u8
        ensures { result ≡ status_of self.now }
    {
        match self {
            CommandEnd::Done => 0,
            CommandEnd::NotLoaded(LoadFault::Failed) => 3,
            CommandEnd::NotLoaded(LoadFault::NoMemory) => 5,
            CommandEnd::NotLoaded(_) => 1,
            CommandEnd::JournalLocked | CommandEnd::JournalExists => 1,
            CommandEnd::JournalRefused(JournalRefusal::NoMemory) => 5,
            CommandEnd::JournalRefused(_) => 1,
            CommandEnd::WordsRefused => 2,
            CommandEnd::ReadFault | CommandEnd::JournalFailed => 3,
            CommandEnd::WriteFault | CommandEnd::JournalLost => 4,
            CommandEnd::NoMemory => 5,
            CommandEnd::InputCut | CommandEnd::InputRefused => 6,
        }
    }

    /// Its note, with its line feed; none where all is done.
    pub fn note(&self) -> NoteText<'_>
        ensures { result.front.now ++ (place_text result.place ++ result.end.now) ≡ note_of self.now }
    {
        match self {
            CommandEnd::Done => NoteText::of(b""),
            CommandEnd::NotLoaded(fault) => fault.note(),
            CommandEnd::JournalLocked => NoteText::of(b"rail_host: journal locked\n"),
            CommandEnd::JournalExists => NoteText::of(b"rail_host: journal exists\n"),
            CommandEnd::JournalRefused(refusal) => refusal.note(),
            CommandEnd::WordsRefused => NoteText::of(b"rail_host: words refused\n"),
            CommandEnd::ReadFault => NoteText::of(b"rail_host: read fault\n"),
            CommandEnd::JournalFailed => NoteText::of(b"rail_host: journal failed\n"),
            CommandEnd::WriteFault => NoteText::of(b"rail_host: write fault\n"),
            CommandEnd::JournalLost => NoteText::of(b"rail_host: journal lost\n"),
            CommandEnd::NoMemory => NoteText::of(b"rail_host: no memory\n"),
            CommandEnd::InputCut => NoteText::of(b"rail_host: input cut\n"),
            CommandEnd::InputRefused => NoteText::of(b"rail_host: input refused\n"),
        }
    }
}

/// Writes the note of a command's end, and answers its status, which a failing note doesn't change.
pub fn end_command<E: Sink>(notes: &mut E, end: &CommandEnd) -> u8
    ensures status { result ≡ status_of end.now }
    ensures never_falls { E.faults notes.old ≤ E.faults notes.new }
    ensures noted { TakesNote E.told E.faults notes.old notes.new (note_of end.now) }
{
    note_parts(notes, end.note());
    end.status()
}
