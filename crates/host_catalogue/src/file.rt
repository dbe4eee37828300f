// The files that a command reads.
ghost use Rattle.std.specs.Prelude.{◌≡◌, ◌≤◌, IfErr, IfOk};
ghost use Rattle.host_catalogue.specs.Files.{HasCause, IsFileFault, IsTextOf, most_of, OfCounts};
ghost use Rattle.host_catalogue.specs.Loading.{fault_of_catalogue, fault_of_import};
ghost use Rattle.host_catalogue.specs.declared.file.LoadFault.TheVariants.{NoMemory};

use cold_store::ImportFault;
use rail_catalogue::CatalogueFault;
use rail_io::{Fetched, Shelf};
use std::alloc::{AllocError, Global};

/// A file that a command reads.
#[derive(Clone, Copy, PartialEq, Eq)]
pub enum File {
    /// What is sold.
    Catalogue,
    /// The bookings that the books open with.
    Export,
    /// The bookings as they changed while they were sold.
    Journal,
}

impl File {
    /// The most bytes that it may have.
    pub fn most(self) -> u32
        ensures { result ≡ most_of self }
    {
        match self {
            File::Catalogue => 33_554_432,
            File::Export => 268_435_456,
            File::Journal => u32::MAX,
        }
    }
}

/// Why a command has no books.
#[derive(Drop)]
pub enum LoadFault {
    /// There is no file with the name.
    Missing(File),
    /// The file has more bytes than it may have.
    TooLarge(File),
    /// The file's text is no catalogue.
    Refused(CatalogueFault),
    /// The file's text is no export of such books.
    RefusedExport(ImportFault),
    /// The shelf failed.
    Failed,
    /// There was no memory for a text or for what it says.
    NoMemory,
}

impl From<AllocError> for LoadFault {
    ghost from_gives = { λ _ fault. fault ≡ NoMemory };

    fn from(_: AllocError) -> LoadFault {
        LoadFault::NoMemory
    }
}

impl From<CatalogueFault> for LoadFault {
    ghost from_gives = { λ cause fault. fault ≡ fault_of_catalogue cause };

    fn from(fault: CatalogueFault) -> LoadFault {
        match fault {
            CatalogueFault::NoMemory => LoadFault::NoMemory,
            fault => LoadFault::Refused(fault),
        }
    }
}

impl From<ImportFault> for LoadFault {
    ghost from_gives = { λ cause fault. fault ≡ fault_of_import cause };

    fn from(fault: ImportFault) -> LoadFault {
        match fault {
            ImportFault::NoMemory => LoadFault::NoMemory,
            fault => LoadFault::RefusedExport(fault),
        }
    }
}

/// The text of the file with the name. The shelf is asked once.
pub(crate) fn fetch_text<F: Shelf>(
    alloc: Global,
    shelf: &mut F,
    file: File,
    name: &str,
) -> Result<Vec<u8>, LoadFault>
    ensures ok { IfOk result (λ text. IsTextOf file (F.told shelf.old) name.now text.items) }
    ensures err { IfErr result (IsFileFault file (F.told shelf.old) name.now) }
    ensures same { F.told shelf.new ≡ F.told shelf.old }
    ensures steady { IfOk result (λ _. F.faults shelf.new ≡ F.faults shelf.old) }
    ensures never_falls { F.misses shelf.old ≤ F.misses shelf.new }
    ensures cause { IfErr result (λ e. OfCounts F.faults F.misses shelf.old shelf.new (HasCause e)) }
{
    match shelf.fetch(alloc, name, file.most()) {
        Fetched::Got(text) => Ok(text),
        Fetched::Missing => Err(LoadFault::Missing(file)),
        Fetched::TooLarge => Err(LoadFault::TooLarge(file)),
        Fetched::Failed => Err(LoadFault::Failed),
        Fetched::NoMemory => Err(LoadFault::NoMemory),
    }
}
