// How a command over the input ends.
ghost use Rattle.std.specs.Prelude.{◌≡◌};
ghost use Rattle.host_replay.specs.Input.{end_of_replay};

use host_catalogue::{CommandEnd, LoadFault};
use session_loop::ConnEnd;

/// How a replay or an export ended.
#[derive(Drop)]
pub enum ReplayEnd {
    /// There was no memory for the words.
    NoMemory,
    /// There are no books to serve.
    NotLoaded(LoadFault),
    /// The connection ended so. Of an export: `Done` where its text is written, and `WriteFault` where the output
    /// failed in it.
    Served(ConnEnd),
}

/// The command's end.
pub(crate) fn command_end(end: ReplayEnd) -> CommandEnd
    ensures { result ≡ end_of_replay end }
{
    match end {
        ReplayEnd::NoMemory => CommandEnd::NoMemory,
        ReplayEnd::NotLoaded(fault) => CommandEnd::NotLoaded(fault),
        ReplayEnd::Served(end) => CommandEnd::of(end),
    }
}
