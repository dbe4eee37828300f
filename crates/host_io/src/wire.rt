// The calls of the system at a stream.
ghost use Rattle.std.specs.Prelude.{◌≡◌, ◌++◌, ℕ, List, Option};
ghost use Rattle.std.specs.Io.Slices.{io_slices_bytes};
ghost use Rattle.host_io.specs.Wires.{Receives, Sends, Settings, Sets};
ghost use Rattle.host_io.specs.Wires.{set_waits as waits_as, set_limit as limit_as, set_ended as ended_as};

use std::io;
use std::io::IoSlice;

/// A stream that was accepted, as the system's calls answer: a number of bytes, which may be fewer than asked for, or
/// an error. One that would have to wait either does, or fails at once with `WouldBlock`.
pub trait Wire {
    /// The bytes still to come, where the stream tells them.
    ghost incoming: { Self → Option (List ℕ) };

    /// All bytes that went out, where the stream tells them.
    ghost outgoing: { Self → Option (List ℕ) };

    /// How it is set, where the stream tells it.
    ghost settings: { Self → Option Settings };

    /// Reads some of what has come.
    fn receive(&mut self, room: &mut [u8]) -> io::Result<usize>
        ensures receives { Receives (incoming self.old) (incoming self.new) room.new result }
        ensures sent { outgoing self.new ≡ outgoing self.old }
        ensures same { settings self.new ≡ settings self.old };

    /// Sends some of the piece.
    fn send(&mut self, piece: &[u8]) -> io::Result<usize>
        ensures sends { Sends (outgoing self.old) (outgoing self.new) piece.now result }
        ensures left { incoming self.new ≡ incoming self.old }
        ensures same { settings self.new ≡ settings self.old };

    /// Sends some of both pieces, one after the other, which costs the system more.
    fn send_both(&mut self, first: &[u8], second: &[u8]) -> io::Result<usize>
        ensures sends { Sends (outgoing self.old) (outgoing self.new) (first.now ++ second.now) result }
        ensures left { incoming self.new ≡ incoming self.old }
        ensures same { settings self.new ≡ settings self.old };

    /// Sets whether calls wait.
    fn set_waits(&mut self, waits: bool) -> io::Result<()>
        ensures sets { Sets (settings self.old) (settings self.new) (waits_as waits (settings self.old)) result }
        ensures sent { outgoing self.new ≡ outgoing self.old }
        ensures left { incoming self.new ≡ incoming self.old };

    /// Sets how many milliseconds a read may wait.
    fn set_read_limit(&mut self, milliseconds: u64) -> io::Result<()>
        ensures sets { Sets (settings self.old) (settings self.new) (limit_as milliseconds (settings self.old)) result }
        ensures sent { outgoing self.new ≡ outgoing self.old }
        ensures left { incoming self.new ≡ incoming self.old };

    /// Tells the other side that no more comes.
    fn end_sending(&mut self) -> io::Result<()>
        ensures sets { Sets (settings self.old) (settings self.new) (ended_as (settings self.old)) result }
        ensures sent { outgoing self.new ≡ outgoing self.old }
        ensures left { incoming self.new ≡ incoming self.old };
}

/// Two pieces for one call of the system: the second follows the first.
pub(crate) fn pieces_of<'a>(first: &'a [u8], second: &'a [u8]) -> [IoSlice<'a>; 2]
    ensures { io_slices_bytes result ≡ first.now ++ second.now }
{
    [IoSlice::new(first), IoSlice::new(second)]
}
