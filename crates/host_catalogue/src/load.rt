// A catalogue out of a shelf.
ghost use Rattle.std.specs.Prelude.{◌≡◌, ◌≤◌, IfErr, IfOk};
ghost use Rattle.host_catalogue.specs.Files.{HasCause, OfCounts};
ghost use Rattle.host_catalogue.specs.Loading.{Loads};

use crate::file::{File, LoadFault, fetch_text};
use rail_catalogue::{Catalogue, read_catalogue};
use rail_io::Shelf;
use std::alloc::Global;

/// The catalogue of the file with the name, of at most 33,554,432 bytes. The shelf is asked once.
pub fn load_catalogue<F: Shelf>(
    alloc: Global,
    shelf: &mut F,
    name: &str,
) -> Result<Catalogue, LoadFault>
    ensures loads { Loads (F.told shelf.old) name.now result }
    ensures same { F.told shelf.new ≡ F.told shelf.old }
    ensures steady { IfOk result (λ _. F.faults shelf.new ≡ F.faults shelf.old) }
    ensures never_falls { F.misses shelf.old ≤ F.misses shelf.new }
    ensures cause { IfErr result (λ e. OfCounts F.faults F.misses shelf.old shelf.new (HasCause e)) }
{
    let text = fetch_text(alloc, shelf, File::Catalogue, name)?;
    Ok(read_catalogue(alloc, text.as_slice())?)
}
