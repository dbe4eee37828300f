// How a settlement ends.
ghost use Rattle.std.specs.Prelude.{◌≡◌};
ghost use Rattle.host_replay.specs.Settle.{end_of_settle};

use host_catalogue::{CommandEnd, LoadFault};

/// How a settlement ended.
#[derive(Drop)]
pub enum SettleEnd {
    /// The table is written.
    Written,
    /// There are no books to settle.
    NotLoaded(LoadFault),
    /// The output failed in the table.
    WriteFault,
    /// There was no memory for the table.
    NoMemory,
}

/// The command's end.
pub(crate) fn command_end(end: SettleEnd) -> CommandEnd
    ensures { result ≡ end_of_settle end }
{
    match end {
        SettleEnd::Written => CommandEnd::Done,
        SettleEnd::NotLoaded(fault) => CommandEnd::NotLoaded(fault),
        SettleEnd::WriteFault => CommandEnd::WriteFault,
        SettleEnd::NoMemory => CommandEnd::NoMemory,
    }
}
