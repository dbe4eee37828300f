// The books that a journal leaves.
ghost use Rattle.std.specs.Prelude.{◌≡◌, IfErr, IfOk};
ghost use Rattle.journal_text.specs.Rooms.{fold_view};
ghost use Rattle.host_catalogue.specs.Files.{OfCounts};
ghost use Rattle.host_catalogue.specs.Journals.{HasRecoverCause, IsFoldFor, IsNotFolded, IsNotRecovered, IsRecovered};
ghost use Rattle.host_catalogue.specs.Journals.{refusal_of_export, refusal_of_text};
ghost use Rattle.host_catalogue.specs.Opening.{IsOpenedFrom};
ghost use Rattle.host_catalogue.specs.declared.journal.JournalRefusal.TheVariants.{NoMemory};
ghost use Rattle.host_catalogue.specs.declared.journal.RecoverFault.TheVariants.{NotLoaded, Refused};

use crate::file::{File, LoadFault, fetch_text};
use crate::load::load_catalogue;
use crate::opening::import_text;
use crate::prints::print_of;
use catalogue_contents::Catalogue;
use claim_rule::{Books, Desk};
use cold_store::ImportFault;
use journal_text::{Folded, JournalFault, fold};
use rail_io::Shelf;
use std::alloc::{AllocError, Global};

/// Why the text of a journal gives no books.
#[derive(Clone, Copy, Debug, PartialEq, Eq)]
pub enum JournalRefusal {
    /// The text is no journal.
    NoJournal(JournalFault),
    /// It is the journal of a catalogue in which the numbers of places mean something else.
    OtherCatalogue,
    /// The export that it folds to is none of such books.
    Export(ImportFault),
    /// There was no memory for the fold or for the books.
    NoMemory,
}

impl From<AllocError> for JournalRefusal {
    ghost from_gives = { λ _ refusal. refusal ≡ NoMemory };

    fn from(_: AllocError) -> JournalRefusal {
        JournalRefusal::NoMemory
    }
}

impl From<JournalFault> for JournalRefusal {
    ghost from_gives = { λ cause refusal. refusal ≡ refusal_of_text cause };

    fn from(fault: JournalFault) -> JournalRefusal {
        match fault {
            JournalFault::NoMemory => JournalRefusal::NoMemory,
            fault => JournalRefusal::NoJournal(fault),
        }
    }
}

impl From<ImportFault> for JournalRefusal {
    ghost from_gives = { λ cause refusal. refusal ≡ refusal_of_export cause };

    fn from(fault: ImportFault) -> JournalRefusal {
        match fault {
            ImportFault::NoMemory => JournalRefusal::NoMemory,
            fault => JournalRefusal::Export(fault),
        }
    }
}

/// The fold of a journal of the catalogue.
fn fold_for(alloc: Global, catalogue: &Catalogue, text: &[u8]) -> Result<Folded, JournalRefusal>
    ensures ok { IfOk result (λ folded. IsFoldFor catalogue.now text.now (fold_view folded)) }
    ensures err { IfErr result (IsNotFolded catalogue.now text.now) }
{
    let folded = fold(alloc, text)?;
    let print = print_of(alloc, catalogue)?;
    if folded.print.digits != print.digits {
        return Err(JournalRefusal::OtherCatalogue);
    }
    Ok(folded)
}

/// The fold of a journal of the catalogue, the books that open with the bookings of its export, and their first desk,
/// which has seen nothing.
pub fn fold_books(
    alloc: Global,
    catalogue: &Catalogue,
    text: &[u8],
) -> Result<(Folded, Books, Desk), JournalRefusal>
    ensures fold { IfOk result (λ t. IsFoldFor catalogue.now text.now (fold_view t.0)) }
    ensures books { IfOk result (λ t. IsOpenedFrom catalogue.now t.0.export.items t.1 t.2) }
    ensures err { IfErr result (IsNotFolded catalogue.now text.now) }
{
    let folded = fold_for(alloc, catalogue, text)?;
    let (books, desk) = import_text(alloc, catalogue, folded.export.as_slice())?;
    Ok((folded, books, desk))
}

/// Why no export is recovered from a journal.
#[derive(Drop)]
pub enum RecoverFault {
    /// There is no catalogue, or no text of a journal.
    NotLoaded(LoadFault),
    /// The journal's text is refused.
    Refused(JournalRefusal),
}

impl From<LoadFault> for RecoverFault {
    ghost from_gives = { λ cause fault. fault ≡ NotLoaded cause };

    fn from(fault: LoadFault) -> RecoverFault {
        RecoverFault::NotLoaded(fault)
    }
}

impl From<JournalRefusal> for RecoverFault {
    ghost from_gives = { λ cause fault. fault ≡ Refused cause };

    fn from(refusal: JournalRefusal) -> RecoverFault {
        RecoverFault::Refused(refusal)
    }
}

/// The export of a journal's file, of at most 4,294,967,295 bytes, which is read after the catalogue of the file with
/// the name. Books of the catalogue open with it.
pub fn recover_export<F: Shelf>(
    alloc: Global,
    shelf: &mut F,
    name: &str,
    journal: &str,
) -> Result<Vec<u8>, RecoverFault>
    ensures ok { IfOk result (λ text. IsRecovered (F.told shelf.old) name.now journal.now text.items) }
    ensures err { IfErr result (IsNotRecovered (F.told shelf.old) name.now journal.now) }
    ensures same { F.told shelf.new ≡ F.told shelf.old }
    ensures steady { IfOk result (λ _. F.faults shelf.new ≡ F.faults shelf.old) }
    ensures cause { IfErr result (λ e. OfCounts F.faults F.misses shelf.old shelf.new (HasRecoverCause e)) }
{
    let catalogue = load_catalogue(alloc, shelf, name)?;
    let text = fetch_text(alloc, shelf, File::Journal, journal)?;
    let (folded, _books, _desk) = fold_books(alloc, &catalogue, text.as_slice())?;
    Ok(folded.export)
}
