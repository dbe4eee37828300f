// How `serve` ends.
ghost use Rattle.std.specs.Prelude.{◌≡◌, false, true};
ghost use Rattle.host_journal.specs.Ends.{end_of_kept, end_of_serve, lost_or, outcome_of_books};
ghost use Rattle.host_journal.specs.declared.end.BooksOutcome.TheVariants.{AcceptFailed, Served};

use claim_rule::Wall;
use host_catalogue::{CommandEnd, File, JournalRefusal, LoadFault};

/// Why serving ended.
#[derive(Drop)]
pub enum ServeOutcome {
    /// The words are none of the command.
    Refused,
    /// There was no memory to begin with.
    NoMemory,
    /// There are no books to serve.
    NotLoaded(LoadFault),
    /// The bind failed, and nothing was served.
    NotBound,
    /// An accept failed, after the connections that were served.
    AcceptFailed,
    /// As many connections as were asked for have ended.
    Served,
    /// As many connections as were asked for have ended, and there was no memory for the export of the books.
    NoText,
    /// As many connections as were asked for have ended, and the notes failed in the export.
    Unwritten,
}

/// How books were served.
#[derive(Clone, Copy, Debug)]
pub enum BooksOutcome {
    /// There was no memory for the members.
    NoMemory,
    /// An accept failed, after the connections that were served.
    AcceptFailed,
    /// As many connections as were asked for have ended.
    Served,
}

impl BooksOutcome {
    /// How they were served where no accept failed, or where one did.
    pub fn of(all: bool) -> BooksOutcome
        ensures all { all ≡ true → result ≡ Served }
        ensures failed { all ≡ false → result ≡ AcceptFailed }
    {
        if all {
            BooksOutcome::Served
        } else {
            BooksOutcome::AcceptFailed
        }
    }

    /// How serving ended then.
    pub fn outcome(self) -> ServeOutcome
        ensures { result ≡ outcome_of_books self }
    {
        match self {
            BooksOutcome::NoMemory => ServeOutcome::NoMemory,
            BooksOutcome::AcceptFailed => ServeOutcome::AcceptFailed,
            BooksOutcome::Served => ServeOutcome::Served,
        }
    }
}

impl ServeOutcome {
    /// How serving with a journal ended, where books were served so: the journal may be lost by then.
    pub fn kept(self, is_lost: bool) -> KeptOutcome
        ensures { result ≡ lost_or is_lost self }
    {
        match self {
            ServeOutcome::Served | ServeOutcome::AcceptFailed if is_lost => KeptOutcome::Lost,
            other => KeptOutcome::Plain(other),
        }
    }
}

/// Why serving ended, with a journal or without one. That `Locked`, `Failed` and `Lost` have these causes no clause
/// says, nor that the journal is there at `Exists`.
#[derive(Drop)]
pub enum KeptOutcome {
    /// As it ends without one.
    Plain(ServeOutcome),
    /// Another host has the journal.
    Locked,
    /// The journal is there, and an export is named that the books are to begin with.
    Exists,
    /// The journal has more bytes than it may have.
    TooLarge,
    /// The journal's text gives no books.
    Refused(JournalRefusal),
    /// The journal couldn't be read, or not be written anew, and nothing was served.
    Failed,
    /// The journal failed while its bookings were served. All connections have ended.
    Lost,
}

/// What is left when serving has ended.
#[derive(Drop)]
pub struct ServeEnd<L> {
    /// The status of the command.
    pub status: u8,
    /// The listener.
    pub listener: L,
    /// The finished books, where there were any.
    pub wall: Option<Wall>,
}

/// The command's end.
pub fn command_end(outcome: ServeOutcome) -> CommandEnd
    ensures { result ≡ end_of_serve outcome }
{
    match outcome {
        ServeOutcome::Refused => CommandEnd::WordsRefused,
        ServeOutcome::NoMemory | ServeOutcome::NoText => CommandEnd::NoMemory,
        ServeOutcome::NotLoaded(fault) => CommandEnd::NotLoaded(fault),
        ServeOutcome::NotBound | ServeOutcome::AcceptFailed => CommandEnd::ReadFault,
        ServeOutcome::Unwritten => CommandEnd::WriteFault,
        ServeOutcome::Served => CommandEnd::Done,
    }
}

/// The command's end, with a journal or without one.
pub fn kept_end(outcome: KeptOutcome) -> CommandEnd
    ensures { result ≡ end_of_kept outcome }
{
    match outcome {
        KeptOutcome::Plain(outcome) => command_end(outcome),
        KeptOutcome::Locked => CommandEnd::JournalLocked,
        KeptOutcome::Exists => CommandEnd::JournalExists,
        KeptOutcome::TooLarge => CommandEnd::NotLoaded(LoadFault::TooLarge(File::Journal)),
        KeptOutcome::Refused(refusal) => CommandEnd::JournalRefused(refusal),
        KeptOutcome::Failed => CommandEnd::JournalFailed,
        KeptOutcome::Lost => CommandEnd::JournalLost,
    }
}
