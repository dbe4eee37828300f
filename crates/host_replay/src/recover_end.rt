// How a recovery ends.
ghost use Rattle.std.specs.Prelude.{◌≡◌};
ghost use Rattle.host_replay.specs.Recover.{end_of_recover};

use host_catalogue::{CommandEnd, RecoverFault};

/// How a recovery ended.
#[derive(Drop)]
pub enum RecoverEnd {
    /// The export is written.
    Written,
    /// There is none to write.
    NotRecovered(RecoverFault),
    /// The output failed in the export.
    WriteFault,
}

/// The command's end.
pub(crate) fn command_end(end: RecoverEnd) -> CommandEnd
    ensures { result ≡ end_of_recover end }
{
    match end {
        RecoverEnd::Written => CommandEnd::Done,
        RecoverEnd::NotRecovered(RecoverFault::NotLoaded(fault)) => CommandEnd::NotLoaded(fault),
        RecoverEnd::NotRecovered(RecoverFault::Refused(refusal)) => CommandEnd::JournalRefused(
            refusal,
        ),
        RecoverEnd::WriteFault => CommandEnd::WriteFault,
    }
}
