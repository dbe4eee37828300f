// The books that a journal leaves, and the log that goes on with it.
ghost use Rattle.std.specs.Prelude.{◌≡◌, ℕ, List, [], Option, None, IfErr, IfOk, IfSome, true};
ghost use Rattle.claim_rule.specs.Openings.{KeptBooking};
ghost use Rattle.line_text.specs.Lines.{IsExportOf, SaidBooking};
ghost use Rattle.row_cuts.specs.Exports.{AreLinesOf};
ghost use Rattle.rail_io.specs.Journals.{Opens};
ghost use Rattle.host_words.specs.Said.{said_in};
ghost use Rattle.host_catalogue.specs.Files.{HasCause, OfCounts};
ghost use Rattle.host_catalogue.specs.Opening.{BeginsWith, IsNotOpened, IsOpened, export_name};
ghost use Rattle.host_journal.specs.Ends.{outcome_of_fault};
ghost use Rattle.host_journal.specs.Causes.{HasKeptCause};
ghost use Rattle.host_journal.specs.Left.{AreLinesFor, IsHeadFor, IsNotLeft, IsShutOut, LeavesIn, LeavesOpened};
ghost use Rattle.host_journal.specs.Logs.{BeginsAnew, log_end};
ghost use Rattle.host_journal.specs.declared.keeping.KeepFault.TheVariants.{NoMemory, NotLoaded, Refused};
ghost use Rattle.host_journal.specs.declared.log.Lines.{Lines};

use crate::end::{KeptOutcome, ServeOutcome};
use crate::log::{Head, Kept, Lines, Log};
use crate::opened::Opened;
use answer_gate::Cuts;
use catalogue_contents::Catalogue;
use host_catalogue::{JournalRefusal, LoadFault, fold_books, import_from, open_books, print_of};
use host_words::ServeWords;
use rail_io::{Journal, JournalOpened, Shelf};
use row_cuts::export_rows;
use std::alloc::{AllocError, Global};

/// The most bytes that a journal may have at a start.
const ROOM: u32 = u32::MAX;

/// What serving with a journal is given besides: the gate that commands go through with its cuts, the journal, and a
/// bell at the port that is served.
#[derive(Drop)]
pub struct Keeping<'g, J, B> {
    pub cuts: &'g Cuts<Kept>,
    pub journal: J,
    pub bell: B,
}

/// Why serving with a journal didn't begin. That `Locked`, `Failed` and `NoMemory` have these causes no clause says,
/// nor that the journal is there at `Exists`.
#[derive(Drop)]
pub enum KeepFault {
    /// Another host has the journal.
    Locked,
    /// It is there, and an export is named that the books are to begin with.
    Exists,
    /// It has more bytes than it may have.
    TooLarge,
    /// Its text gives no books of the catalogue.
    Refused(JournalRefusal),
    /// It isn't there, and the export that is named gives no books; or there was no memory for new ones.
    NotLoaded(LoadFault),
    /// It couldn't be read, or not be written anew.
    Failed,
    /// There was no memory.
    NoMemory,
}

impl From<AllocError> for KeepFault {
    ghost from_gives = { λ _ fault. fault ≡ NoMemory };

    fn from(_: AllocError) -> KeepFault {
        KeepFault::NoMemory
    }
}

impl From<JournalRefusal> for KeepFault {
    ghost from_gives = { λ cause fault. fault ≡ Refused cause };

    fn from(refusal: JournalRefusal) -> KeepFault {
        KeepFault::Refused(refusal)
    }
}

impl From<LoadFault> for KeepFault {
    ghost from_gives = { λ cause fault. fault ≡ NotLoaded cause };

    fn from(fault: LoadFault) -> KeepFault {
        KeepFault::NotLoaded(fault)
    }
}

impl KeepFault {
    /// How serving ends then.
    pub fn outcome(self) -> KeptOutcome
        ensures { result ≡ outcome_of_fault self }
    {
        match self {
            KeepFault::Locked => KeptOutcome::Locked,
            KeepFault::Exists => KeptOutcome::Exists,
            KeepFault::TooLarge => KeptOutcome::TooLarge,
            KeepFault::Refused(refusal) => KeptOutcome::Refused(refusal),
            KeepFault::NotLoaded(fault) => KeptOutcome::Plain(ServeOutcome::NotLoaded(fault)),
            KeepFault::Failed => KeptOutcome::Failed,
            KeepFault::NoMemory => KeptOutcome::Plain(ServeOutcome::NoMemory),
        }
    }
}

/// Opened books, and the lines of their rows.
#[derive(Drop)]
struct Found {
    opened: Opened,
    lines: Lines,
}

/// The books of a catalogue with the bookings that this journal leaves, which is to be opened by the words' name; where
/// it isn't there, with those of the export that the words name, or with none. And the journal's log, which has begun
/// anew.
pub fn open_journal<F: Shelf, J: Journal + Drop>(
    alloc: Global,
    shelf: &mut F,
    cat: &Catalogue,
    said: &ServeWords<'_>,
    journal: J,
) -> Result<(Opened, Log<J>), KeepFault>
    ensures ok { IfOk result (λ t. (lines : Lines) × LeavesOpened (record {
      files = F.told shelf.old;
      from = (said_in said.now).from;
      told = J.told journal;
    }) cat.now t.0 lines
        × BeginsAnew (J.told journal) (J.told t.1.journal) t.1.head lines (log_end t.1) true) }
    ensures head { IfOk result (λ t. IsHeadFor cat.now t.1.head) }
    ensures err { IfErr result (IsNotLeft cat.now (record {
      files = F.told shelf.old;
      from = (said_in said.now).from;
      told = J.told journal;
    })) }
    ensures same { F.told shelf.new ≡ F.told shelf.old }
    ensures steady { IfOk result (λ _. F.faults shelf.new ≡ F.faults shelf.old) }
    ensures cause { IfErr result (λ e. OfCounts F.faults F.misses shelf.old shelf.new
        (HasKeptCause (outcome_of_fault e))) }
{
    let mut journal = journal;
    let was = journal.open(alloc, said.journal.unwrap_or(""), ROOM);
    let Found { opened, lines } = found_by(alloc, shelf, cat, said.from, was)?;
    let head = Head {
        places: opened.books.places(),
        rows: opened.books.rows(),
        print: print_of(alloc, cat)?,
    };
    let mut log = Log::of(journal, head);
    if !log.begin(alloc, &lines) {
        return Err(KeepFault::Failed);
    }
    Ok((opened, log))
}

/// The books of the catalogue that the opening of a journal leaves, or that begin with the export of the name; and the
/// lines of their rows.
fn found_by<F: Shelf>(
    alloc: Global,
    shelf: &mut F,
    cat: &Catalogue,
    from: Option<&str>,
    opened: JournalOpened,
) -> Result<Found, KeepFault>
    ensures ok { IfOk result (λ found. (told : Option (List ℕ)) → IfSome told (λ all. Opens all 4_294_967_295 opened)
        → LeavesOpened (record { files = F.told shelf.old; from = export_name from.entry; told = told })
        cat.now found.opened found.lines) }
    ensures err { IfErr result (λ fault. (told : Option (List ℕ)) → IfSome told (λ all. Opens all 4_294_967_295 opened)
        → IsNotLeft cat.now (record { files = F.told shelf.old; from = export_name from.entry; told = told }) fault) }
    ensures same { F.told shelf.new ≡ F.told shelf.old }
    ensures steady { IfOk result (λ _. F.faults shelf.new ≡ F.faults shelf.old) }
    ensures cause { IfErr result (λ e. OfCounts F.faults F.misses shelf.old shelf.new
        (HasKeptCause (outcome_of_fault e))) }
{
    match opened {
        JournalOpened::Text(text) => found_in(alloc, cat, from, text.as_slice()),
        JournalOpened::Missing => Ok(found_from(alloc, shelf, cat, from)?),
        JournalOpened::TooLarge => Err(KeepFault::TooLarge),
        JournalOpened::Locked => Err(KeepFault::Locked),
        JournalOpened::Failed => Err(KeepFault::Failed),
        JournalOpened::NoMemory => Err(KeepFault::NoMemory),
    }
}

/// The books of the catalogue that a journal's text leaves, and the lines of its fold. Where an export is named, the
/// text isn't even read.
fn found_in(
    alloc: Global,
    cat: &Catalogue,
    from: Option<&str>,
    text: &[u8],
) -> Result<Found, KeepFault>
    ensures ok { IfOk result (λ found. (export_name from.entry ≡ None)
        × LeavesIn cat.now text.now found.opened found.lines) }
    ensures err { IfErr result (IsShutOut cat.now (export_name from.entry) text.now) }
{
    if let Some(_) = from {
        return Err(KeepFault::Exists);
    }
    let (folded, books, first) = fold_books(alloc, cat, text)?;
    Ok(Found {
        opened: Opened { books, first },
        lines: lines_in(alloc, folded.export.as_slice())?,
    })
}

/// The books of the catalogue that begin with the export of the name, and its lines; without a name new ones, without a
/// line.
fn found_from<F: Shelf>(
    alloc: Global,
    shelf: &mut F,
    cat: &Catalogue,
    from: Option<&str>,
) -> Result<Found, LoadFault>
    ensures ok { IfOk result (λ found. (kept : List KeptBooking)
        × BeginsWith (F.told shelf.old) cat.now (export_name from.entry) kept
        × IsOpened cat.now kept found.opened.books found.opened.first × AreLinesFor kept found.lines) }
    ensures err { IfErr result (IsNotOpened (F.told shelf.old) cat.now (export_name from.entry)) }
    ensures same { F.told shelf.new ≡ F.told shelf.old }
    ensures steady { IfOk result (λ _. F.faults shelf.new ≡ F.faults shelf.old) }
    ensures cause { IfErr result (λ e. OfCounts F.faults F.misses shelf.old shelf.new (HasCause e)) }
{
    let Some(name) = from else {
        return Ok(new_found(alloc, cat)?);
    };
    let (text, books, first) = import_from(alloc, shelf, cat, name)?;
    Ok(Found {
        opened: Opened { books, first },
        lines: lines_in(alloc, text.as_slice())?,
    })
}

/// New books of the catalogue, without a line.
fn new_found(alloc: Global, cat: &Catalogue) -> Result<Found, AllocError>
    ensures opened { IfOk result (λ found. IsOpened cat.now [] found.opened.books found.opened.first) }
    ensures lines { IfOk result (λ found. AreLinesFor [] found.lines) }
{
    let (books, first) = open_books(alloc, cat)?;
    Ok(Found {
        opened: Opened { books, first },
        lines: Lines {
            text: Vec::new(alloc),
            count: 0,
        },
    })
}

/// The lines of an export's rows.
fn lines_in(alloc: Global, export: &[u8]) -> Result<Lines, AllocError>
    ensures { IfOk result (λ lines. (places rows : ℕ) (said : List SaidBooking)
        → IsExportOf export.now places rows said → AreLinesOf said lines.text.items lines.count) }
{
    let (lines, count) = export_rows(export);
    let mut text = Vec::new(alloc);
    text.extend_from_slice(lines)?;
    Ok(Lines { text, count })
}
