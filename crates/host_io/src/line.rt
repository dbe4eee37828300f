// A stream whose reads look for a moment before they wait.
ghost use Rattle.std.specs.Prelude.{◌≡◌, ◌++◌, ◌⊎◌, OnOk, OnErr};
ghost use Rattle.host_io.specs.Wires.{Receives, Sends, limits_of, set_waits as waits_as};

use crate::wire::Wire;
use rail_io::RETRIES;
use std::io::ErrorKind;
use std::{io, thread};

/// How often a read looks whether more has come before it waits for it. Between two looks it lets other threads run.
const LOOKS: u32 = 32;

/// How many reads wait without looking first after one whose looks found nothing.
const READS_WITHOUT: u32 = 32;

/// A stream that is read and written by one thread. A client that is near asks again within some microseconds: a read
/// that looks so long spares both sides a sleep and a wake-up. Where the looks find nothing, the client is far or idle,
/// and the next reads do without.
#[derive(Drop)]
pub(crate) struct Line<W: Wire + Drop> {
    pub(crate) wire: W,
    /// Whether a call of the system waits; else it answers at once that it would have to.
    waits: bool,
    /// How many of the next reads don't look.
    without: u32,
}

impl<W: Wire + Drop> Line<W> {
    /// A stream as it was accepted, whose calls wait.
    pub(crate) fn of(wire: W) -> Line<W>
        ensures { result.wire ≡ wire }
    {
        Line {
            wire,
            waits: true,
            without: 0,
        }
    }

    // Sets whether calls of the system wait. Where the system refuses it, they do as before.
    fn set_waits(&mut self, waits: bool) -> io::Result<()>
        ensures set { OnOk result (((self.old.waits ≡ waits) × (W.settings self.new.wire ≡ W.settings self.old.wire))
            ⊎ (W.settings self.new.wire ≡ waits_as waits (W.settings self.old.wire))) }
        ensures noted { OnOk result (self.new.waits ≡ waits) }
        ensures refused { OnErr result ((self.new.waits ≡ self.old.waits)
            × (W.settings self.new.wire ≡ W.settings self.old.wire)) }
        ensures limits { limits_of (W.settings self.new.wire) ≡ limits_of (W.settings self.old.wire) }
        ensures left { W.incoming self.new.wire ≡ W.incoming self.old.wire }
        ensures sent { W.outgoing self.new.wire ≡ W.outgoing self.old.wire }
    {
        if self.waits == waits {
            return Ok(());
        }
        self.wire.set_waits(waits)?;
        self.waits = waits;
        Ok(())
    }

    /// Reads some of what has come, or waits for it as long as the stream's time limit says.
    pub(crate) fn read(&mut self, room: &mut [u8]) -> io::Result<usize>
        ensures receives { Receives (W.incoming self.old.wire) (W.incoming self.new.wire) room.new result }
        ensures sent { W.outgoing self.new.wire ≡ W.outgoing self.old.wire }
        ensures limits { limits_of (W.settings self.new.wire) ≡ limits_of (W.settings self.old.wire) }
    {
        if self.without == 0 {
            match self.look(room) {
                Err(error) if error.kind() == ErrorKind::WouldBlock => {}
                outcome => return outcome,
            }
            self.without = READS_WITHOUT;
        } else {
            self.without -= 1;
        }
        self.set_waits(true)?;
        self.wire.receive(room)
    }

    // Looks a few times whether something has come; an error says that nothing has, as one of the system does.
    fn look(&mut self, room: &mut [u8]) -> io::Result<usize>
        ensures receives { Receives (W.incoming self.old.wire) (W.incoming self.new.wire) room.new result }
        ensures sent { W.outgoing self.new.wire ≡ W.outgoing self.old.wire }
        ensures limits { limits_of (W.settings self.new.wire) ≡ limits_of (W.settings self.old.wire) }
    {
        if self.set_waits(false).is_err() {
            return Err(io::Error::from(ErrorKind::WouldBlock));
        }
        for _ in 0..LOOKS {
            match self.wire.receive(room) {
                Err(error) if error.kind() == ErrorKind::WouldBlock => thread::yield_now(),
                outcome => return outcome,
            }
        }
        Err(io::Error::from(ErrorKind::WouldBlock))
    }

    // Whether a write that failed so is made again: one that a signal interrupted, or one that would have had to wait.
    // From then on the stream waits.
    fn tries_again(&mut self, kind: ErrorKind) -> bool
        ensures left { W.incoming self.new.wire ≡ W.incoming self.old.wire }
        ensures sent { W.outgoing self.new.wire ≡ W.outgoing self.old.wire }
        ensures limits { limits_of (W.settings self.new.wire) ≡ limits_of (W.settings self.old.wire) }
    {
        match kind {
            ErrorKind::Interrupted => true,
            ErrorKind::WouldBlock => !self.waits && self.set_waits(true).is_ok(),
            _ => false,
        }
    }

    /// Sends some of the piece, for which it waits as long as the stream's time limit says.
    pub(crate) fn send(&mut self, piece: &[u8]) -> io::Result<usize>
        ensures sends { Sends (W.outgoing self.old.wire) (W.outgoing self.new.wire) piece.now result }
        ensures left { W.incoming self.new.wire ≡ W.incoming self.old.wire }
        ensures limits { limits_of (W.settings self.new.wire) ≡ limits_of (W.settings self.old.wire) }
    {
        for _ in 0..RETRIES {
            match self.wire.send(piece) {
                Err(error) if self.tries_again(error.kind()) => {}
                outcome => return outcome,
            }
        }
        self.wire.send(piece)
    }

    /// Sends some of both pieces, one after the other, by one call of the system, for which it waits likewise.
    pub(crate) fn send_both(&mut self, first: &[u8], second: &[u8]) -> io::Result<usize>
        ensures sends { Sends (W.outgoing self.old.wire) (W.outgoing self.new.wire) (first.now ++ second.now) result }
        ensures left { W.incoming self.new.wire ≡ W.incoming self.old.wire }
        ensures limits { limits_of (W.settings self.new.wire) ≡ limits_of (W.settings self.old.wire) }
    {
        for _ in 0..RETRIES {
            match self.wire.send_both(first, second) {
                Err(error) if self.tries_again(error.kind()) => {}
                outcome => return outcome,
            }
        }
        self.wire.send_both(first, second)
    }
}
