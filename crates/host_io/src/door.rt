// The calls of the system at a port.
ghost use Rattle.std.specs.Prelude.{◌≡◌, List, Option, OnOk, OnErr};
ghost use Rattle.host_io.specs.Doors.{DoorCall, Listened, Paused, with_call, answered};

use crate::wire::Wire;
use std::io;
use std::net::IpAddr;

/// A port, as the system's calls answer.
pub trait Door {
    /// The streams that it gives.
    type Wire: Wire + Drop;

    /// The calls that were made of it, and what they came to, where it tells them.
    ghost calls: { Self → Option (List DoorCall) };

    /// Listens at a port of an address from now on.
    fn listen(&mut self, address: IpAddr, port: u16) -> io::Result<()>
        ensures listens { OnOk result (calls self.new ≡ with_call (calls self.old) (Listened address port)) }
        ensures refused { OnErr result (calls self.new ≡ calls self.old) };

    /// The next stream, made ready, for which it may wait.
    fn accept(&mut self) -> io::Result<Self::Wire>
        ensures accepts { calls self.new ≡ with_call (calls self.old) (answered result) };

    /// Waits for about so long.
    fn pause(&mut self, milliseconds: u64)
        ensures pauses { calls self.new ≡ with_call (calls self.old) (Paused milliseconds) };
}
