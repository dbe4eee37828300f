// The books of a catalogue.
ghost use Rattle.std.specs.Prelude.{◌≡◌, List, [], Some, IfErr, IfOk};
ghost use Rattle.claim_rule.specs.Openings.{KeptBooking};
ghost use Rattle.claim_rule.specs.Desks.{IsNew, IsOf};
ghost use Rattle.claim_rule.specs.Out.{IsTidy};
ghost use Rattle.booking_rows.specs.SealedRows.{FitWords};
ghost use Rattle.cold_store.specs.Imports.{IsImportFault};
ghost use Rattle.catalogue_contents.specs.Contents.{legs_in};
ghost use Rattle.host_catalogue.specs.Files.{HasCause, IsTextOf, OfCounts};
ghost use Rattle.host_catalogue.specs.declared.file.File.TheVariants.{Export};
ghost use Rattle.host_catalogue.specs.Opening.{BeginsWith, Fails, HasBooks, IsNotImported, IsNotOpened, IsOpened};
ghost use Rattle.host_catalogue.specs.Opening.{IsOpenedFrom, export_name, new_layout};

use crate::file::{File, LoadFault, fetch_text};
use crate::load::load_catalogue;
use catalogue_contents::Catalogue;
use claim_rule::{Books, Desk, start_books};
use cold_store::{ImportFault, import_books};
use rail_io::Shelf;
use std::alloc::{AllocError, Global};

/// New books with the catalogue's places and rows, and their first desk, which has seen nothing.
pub fn open_books(alloc: Global, catalogue: &Catalogue) -> Result<(Books, Desk), AllocError>
    ensures layout { IfOk result (λ t. t.0.layout ≡ new_layout catalogue.now) }
    ensures own { IfOk result (λ t. IsOf t.0 t.1) }
    ensures desk { IfOk result (λ t. IsNew t.1 0 []) }
    ensures tidy { IfOk result (λ t. IsTidy t.1) }
    ensures fit { IfOk result (λ t. FitWords t.0.layout) }
{
    let legs = catalogue.legs(alloc)?;
    start_books(alloc, legs.as_slice(), catalogue.rows())
}

/// Books of the catalogue that open with the bookings of an export, and their first desk, which has seen nothing; or
/// why the text is no export of such books.
pub(crate) fn import_text(
    alloc: Global,
    catalogue: &Catalogue,
    text: &[u8],
) -> Result<(Books, Desk), ImportFault>
    ensures ok { IfOk result (λ t. IsOpenedFrom catalogue.now text.now t.0 t.1) }
    ensures err { IfErr result (IsImportFault (legs_in catalogue.now) catalogue.now.rows text.now) }
{
    let legs = catalogue.legs(alloc)?;
    import_books(alloc, legs.as_slice(), catalogue.rows(), text)
}

/// The same, or why a command has no books.
fn import(alloc: Global, catalogue: &Catalogue, text: &[u8]) -> Result<(Books, Desk), LoadFault>
    ensures ok { IfOk result (λ t. IsOpenedFrom catalogue.now text.now t.0 t.1) }
    ensures err { IfErr result (IsNotImported catalogue.now text.now) }
{
    Ok(import_text(alloc, catalogue, text)?)
}

/// The export with the name, of at most 268,435,456 bytes, the books of the catalogue that open with its bookings, and
/// their first desk, which has seen nothing.
pub fn import_from<F: Shelf>(
    alloc: Global,
    shelf: &mut F,
    catalogue: &Catalogue,
    name: &str,
) -> Result<(Vec<u8>, Books, Desk), LoadFault>
    ensures text { IfOk result (λ t. IsTextOf Export (F.told shelf.old) name.now t.0.items) }
    ensures books { IfOk result (λ t. IsOpenedFrom catalogue.now t.0.items t.1 t.2) }
    ensures err { IfErr result (IsNotOpened (F.told shelf.old) catalogue.now (Some name.now)) }
    ensures same { F.told shelf.new ≡ F.told shelf.old }
    ensures steady { IfOk result (λ _. F.faults shelf.new ≡ F.faults shelf.old) }
    ensures cause { IfErr result (λ e. OfCounts F.faults F.misses shelf.old shelf.new (HasCause e)) }
{
    let text = fetch_text(alloc, shelf, File::Export, name)?;
    let (books, desk) = import(alloc, catalogue, text.as_slice())?;
    Ok((text, books, desk))
}

/// The books of the catalogue: new ones, or those that open with the bookings of the export with the name.
fn open_from<F: Shelf>(
    alloc: Global,
    shelf: &mut F,
    catalogue: &Catalogue,
    from: Option<&str>,
) -> Result<(Books, Desk), LoadFault>
    ensures ok { IfOk result (λ t. (kept : List KeptBooking)
        × BeginsWith (F.told shelf.old) catalogue.now (export_name from.entry) kept
        × IsOpened catalogue.now kept t.0 t.1) }
    ensures err { IfErr result (IsNotOpened (F.told shelf.old) catalogue.now (export_name from.entry)) }
    ensures same { F.told shelf.new ≡ F.told shelf.old }
    ensures steady { IfOk result (λ _. F.faults shelf.new ≡ F.faults shelf.old) }
    ensures cause { IfErr result (λ e. OfCounts F.faults F.misses shelf.old shelf.new (HasCause e)) }
{
    let Some(name) = from else {
        return Ok(open_books(alloc, catalogue)?);
    };
    let (_text, books, desk) = import_from(alloc, shelf, catalogue, name)?;
    Ok((books, desk))
}

/// The catalogue of the file with the name, its books, and their first desk, which has seen nothing. The books open
/// with the bookings of the export with the other name, of at most 268,435,456 bytes, which is read after the
/// catalogue; or, without one, with none.
pub fn load_books<F: Shelf>(
    alloc: Global,
    shelf: &mut F,
    name: &str,
    from: Option<&str>,
) -> Result<(Catalogue, Books, Desk), LoadFault>
    ensures ok { IfOk result (λ t. (kept : List KeptBooking)
        × HasBooks (F.told shelf.old) name.now (export_name from.entry) t.0 kept
        × IsOpened t.0 kept t.1 t.2) }
    ensures err { IfErr result (Fails (F.told shelf.old) name.now (export_name from.entry)) }
    ensures same { F.told shelf.new ≡ F.told shelf.old }
    ensures steady { IfOk result (λ _. F.faults shelf.new ≡ F.faults shelf.old) }
    ensures cause { IfErr result (λ e. OfCounts F.faults F.misses shelf.old shelf.new (HasCause e)) }
{
    let catalogue = load_catalogue(alloc, shelf, name)?;
    let (books, desk) = open_from(alloc, shelf, &catalogue, from)?;
    Ok((catalogue, books, desk))
}
