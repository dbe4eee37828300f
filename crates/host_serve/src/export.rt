// The export of the books that were served.
ghost use Rattle.std.specs.Prelude.{◌≡◌, IfSome};
ghost use Rattle.cold_store.specs.Exports.{IsClosed};
ghost use Rattle.cold_store.specs.Tidy.{IsTidyWall};
ghost use Rattle.host_serve.specs.Telling.{WritesExport};

use claim_rule::Wall;
use cold_store::export_tidy;
use host_journal::ServeOutcome;
use rail_io::Sink;
use session_loop::write_all;
use std::alloc::Global;

/// Writes the export of the wall, where there is one: how serving ends then, which had ended so. A failed
/// accept stays one, whatever becomes of the text.
pub fn write_export<E: Sink>(
    alloc: Global,
    wall: &Option<Wall>,
    export: &mut E,
    outcome: ServeOutcome,
) -> ServeOutcome
    requires closed { IfSome wall.now IsClosed }
    requires tidy { IfSome wall.now IsTidyWall }
    ensures { WritesExport wall.now
        (record {
          before = E.told export.old;
          failed = E.faults export.old;
          after = E.told export.new;
          fails = E.faults export.new;
        })
        outcome result }
{
    let Some(wall) = wall else {
        return outcome;
    };
    let Ok(text) = export_tidy(alloc, wall) else {
        return match outcome {
            ServeOutcome::Served => ServeOutcome::NoText,
            other => other,
        };
    };
    if write_all(export, text.as_slice()) {
        return outcome;
    }
    match outcome {
        ServeOutcome::Served => ServeOutcome::Unwritten,
        other => other,
    }
}
