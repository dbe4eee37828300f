//! The export of a wall that no desk holds up.
ghost use Rattle.std.specs.Prelude.{◌≡◌, IfErr, IfOk};
ghost use Rattle.cold_store.specs.Exports.{IsClosed, text_on};
ghost use Rattle.cold_store.specs.Tidy.{IsTidyWall};
ghost use Rattle.cold_store.specs.declared.fault.ExportFault.TheVariants.{NoMemory};

use crate::export::export_text;
use crate::fault::ExportFault;
use claim_rule::Wall;
use std::alloc::Global;

/// The export of a wall whose desks were all between two calls of the service. No row is open and no place is held:
/// lack of memory is the one fault.
pub fn export_tidy(alloc: Global, wall: &Wall) -> Result<Vec<u8>, ExportFault>
    requires closed { IsClosed wall.now }
    requires tidy { IsTidyWall wall.now }
    ensures ok { IfOk result (λ text. text.items ≡ text_on wall.now) }
    ensures err { IfErr result (λ e. e ≡ NoMemory) }
{
    export_text(alloc, wall)
}
