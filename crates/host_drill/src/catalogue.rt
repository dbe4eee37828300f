ghost use Rattle.std.specs.Prelude.{◌≡◌, ◌≤◌, Ok, IfOk};
ghost use Rattle.rail_catalogue.specs.Format.{catalogue_of};
ghost use Rattle.host_drill.specs.Generator.{catalogue_text};
ghost use Rattle.host_drill.specs.Fits.{FitsDrill};

use crate::generator::catalogue_bytes;
use rail_catalogue::{Catalogue, CatalogueFault, read_catalogue};
use std::alloc::{AllocError, Global};

/// The catalogue of a drill with this many places, which has all that the requests name.
pub fn drill_catalogue(alloc: Global, places: u32) -> Result<Catalogue, AllocError>
    requires some { 1 ≤ places }
    requires most { places ≤ 1_200 }
    ensures catalogue { IfOk result (λ c. catalogue_of (catalogue_text places) ≡ Ok c) }
    ensures fits { IfOk result (λ c. FitsDrill c places) }
{
    let text = catalogue_bytes(alloc, places)?;
    match read_catalogue(alloc, text.as_slice()) {
        Ok(catalogue) => Ok(catalogue),
        Err(fault) => match fault {
            CatalogueFault::NoMemory => Err(AllocError),
            // The text has no fault.
            _ => unreachable!(),
        },
    }
}
