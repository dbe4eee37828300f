// The note on a file that is refused, or of which there is no text.
ghost use Rattle.std.specs.Prelude.{◌≡◌, ◌++◌};
ghost use Rattle.rail_catalogue.specs.declared.fault.CatalogueFault.{CatalogueFault};
ghost use Rattle.cold_store.specs.declared.fault.ImportFault.{ImportFault};
ghost use Rattle.host_catalogue.specs.Notes.{export_note, fault_note, journal_note, load_note, place_text};
ghost use Rattle.host_catalogue.specs.Notes.{refusal_note};

use crate::file::{File, LoadFault};
use crate::journal::JournalRefusal;
use cold_store::ImportFault;
use journal_text::JournalFault;
use rail_catalogue::CatalogueFault;

/// Where a fault is, as its note says it.
#[derive(Clone, Copy)]
pub enum NotePlace<'a> {
    /// At this path, or nowhere.
    Path(&'a [u8]),
    /// In the cut with this number.
    Cut(u64),
    /// In this line of the cut with this number.
    Line { line: u64, cut: u64 },
}

/// A note in three parts, of which the middle one says where, or nothing.
#[derive(Clone, Copy)]
pub struct NoteText<'a> {
    pub front: &'static [u8],
    pub place: NotePlace<'a>,
    pub end: &'static [u8],
}

impl NoteText<'static> {
    /// The note that is this text alone.
    pub fn of(text: &'static [u8]) -> NoteText<'static>
        ensures { result.front.now ++ (place_text result.place ++ result.end.now) ≡ text.now }
    {
        NoteText {
            front: text,
            place: NotePlace::Path(b""),
            end: b"",
        }
    }
}

fn fault_note(fault: &CatalogueFault) -> NoteText<'_>
    ensures { result.front.now ++ (place_text result.place ++ result.end.now) ≡ fault_note fault.now }
{
    match fault {
        CatalogueFault::NotJson => NoteText::of(b"rail_host: catalogue fault 1\n"),
        CatalogueFault::Field { path } => NoteText {
            front: b"rail_host: catalogue fault 2 at ",
            place: NotePlace::Path(path.as_str().as_bytes()),
            end: b"\n",
        },
        CatalogueFault::Run(_) => NoteText::of(b"rail_host: catalogue fault 3\n"),
        CatalogueFault::Place(_) => NoteText::of(b"rail_host: catalogue fault 4\n"),
        CatalogueFault::Tariff(_) => NoteText::of(b"rail_host: catalogue fault 5\n"),
        CatalogueFault::UnknownStation { .. } => NoteText::of(b"rail_host: catalogue fault 6\n"),
        CatalogueFault::DoubleKey => NoteText::of(b"rail_host: catalogue fault 7\n"),
        CatalogueFault::NoMemory => NoteText::of(b"rail_host: no memory\n"),
    }
}

fn export_note(fault: ImportFault) -> NoteText<'static>
    ensures { result.front.now ++ (place_text result.place ++ result.end.now) ≡ export_note fault }
{
    match fault {
        ImportFault::NotAnExport { .. } => NoteText::of(b"rail_host: export fault 1\n"),
        ImportFault::Sizes => NoteText::of(b"rail_host: export fault 2\n"),
        ImportFault::RowWrong { .. } => NoteText::of(b"rail_host: export fault 3\n"),
        ImportFault::Overlap { .. } => NoteText::of(b"rail_host: export fault 4\n"),
        ImportFault::OwnSuccessor { .. } => NoteText::of(b"rail_host: export fault 5\n"),
        ImportFault::NoMemory => NoteText::of(b"rail_host: no memory\n"),
    }
}

fn journal_note(fault: JournalFault) -> NoteText<'static>
    ensures { result.front.now ++ (place_text result.place ++ result.end.now) ≡ journal_note fault }
{
    match fault {
        JournalFault::NotAJournal => NoteText::of(b"rail_host: journal fault 1\n"),
        JournalFault::WrongLine { cut, line } => NoteText {
            front: b"rail_host: journal fault 2 at line ",
            place: NotePlace::Line { line, cut },
            end: b"\n",
        },
        JournalFault::BrokenCut { cut } => NoteText {
            front: b"rail_host: journal fault 3 at cut ",
            place: NotePlace::Cut(cut),
            end: b"\n",
        },
        JournalFault::NoMemory => NoteText::of(b"rail_host: no memory\n"),
    }
}

impl JournalRefusal {
    /// The note that stands for it, with its line feed.
    pub fn note(self) -> NoteText<'static>
        ensures { result.front.now ++ (place_text result.place ++ result.end.now) ≡ refusal_note self }
    {
        match self {
            JournalRefusal::NoJournal(fault) => journal_note(fault),
            JournalRefusal::OtherCatalogue => NoteText::of(b"rail_host: journal fault 4\n"),
            JournalRefusal::Export(fault) => export_note(fault),
            JournalRefusal::NoMemory => NoteText::of(b"rail_host: no memory\n"),
        }
    }
}

impl LoadFault {
    /// The note that stands for it, with its line feed.
    pub fn note(&self) -> NoteText<'_>
        ensures { result.front.now ++ (place_text result.place ++ result.end.now) ≡ load_note self.now }
    {
        match self {
            LoadFault::Missing(File::Catalogue) => NoteText::of(b"rail_host: catalogue missing\n"),
            LoadFault::Missing(File::Export) => NoteText::of(b"rail_host: export missing\n"),
            LoadFault::Missing(File::Journal) => NoteText::of(b"rail_host: journal missing\n"),
            LoadFault::TooLarge(File::Catalogue) => NoteText::of(
                b"rail_host: catalogue too large\n",
            ),
            LoadFault::TooLarge(File::Export) => NoteText::of(b"rail_host: export too large\n"),
            LoadFault::TooLarge(File::Journal) => NoteText::of(b"rail_host: journal too large\n"),
            LoadFault::Refused(fault) => fault_note(fault),
            LoadFault::RefusedExport(fault) => export_note(*fault),
            LoadFault::Failed => NoteText::of(b"rail_host: read fault\n"),
            LoadFault::NoMemory => NoteText::of(b"rail_host: no memory\n"),
        }
    }
}
