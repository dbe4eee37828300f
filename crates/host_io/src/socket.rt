// What a reader and a sink make of the connection that they share.
ghost use Rattle.std.specs.Prelude.{◌≡◌, ◌≤◌, ◌<◌, ◌++◌, ℕ, IfOk, length};
ghost use Rattle.host_io.specs.Talks.{told_by, came_by, LiesAgain, TakesFor, WentOut};
ghost use Rattle.host_io.specs.Wires.{Receives};

use crate::halves::SocketReader;
use crate::slot::Slot;
use crate::talk::Talk;
use crate::watch::Watch;
use crate::wire::Wire;
use rail_io::{Keeper, Pushed, PushedBoth, Sink};
use std::io;
use std::io::{ErrorKind, Read};
use std::marker::PhantomData;

/// The writing half of a connection. Answers are held back until the reading half is asked for more or is let go, or
/// until they are many: so one call of the system sends the answers to all requests that one read gave. The connection
/// takes each with the cut that the sink was held for. That none goes out but by its `KeptLine` is seen in the code.
#[derive(Drop)]
pub struct SocketSink<W: Wire + Drop, K: Keeper + Drop, S: Slot<Talk<W, K>> + Drop> {
    slot: S,
    /// The cut that has to be kept before what is written from now on leaves: 0 for none.
    cut: u64,
    faults: u64,
    of: PhantomData<Talk<W, K>>,
}

impl<W: Wire + Drop, K: Keeper + Drop, S: Slot<Talk<W, K>> + Drop, T: Watch + Drop> SocketReader<
    W,
    K,
    S,
    T,
> {
    /// The reading half of the connection that lies there.
    pub(crate) fn of(watch: T, slot: S) -> Self
        ensures slot { result.slot ≡ slot }
        ensures watch { result.watch ≡ watch }
    {
        SocketReader {
            watch,
            slot,
            of: PhantomData,
        }
    }
}

impl<W: Wire + Drop, K: Keeper + Drop, S: Slot<Talk<W, K>> + Drop> SocketSink<W, K, S> {
    /// The writing half of the connection that lies there, which is held for no cut.
    pub(crate) fn of(slot: S) -> Self
        ensures slot { result.slot ≡ slot }
        ensures free { result.cut ≡ 0 }
    {
        SocketSink {
            slot,
            cut: 0,
            faults: 0,
            of: PhantomData,
        }
    }
}

impl<W: Wire + Drop, K: Keeper + Drop, S: Slot<Talk<W, K>> + Drop, T: Watch + Drop> Read
    for SocketReader<W, K, S, T> {
    fn read(&mut self, buf: &mut [u8]) -> io::Result<usize>
        ensures bound { IfOk result (λ count. count ≤ length buf.new) }
        ensures receives { Receives (came_by W.incoming (S.held self.old.slot))
            (came_by W.incoming (S.held self.new.slot)) buf.new result }
        ensures same { told_by W.outgoing (S.held self.new.slot) ≡ told_by W.outgoing (S.held self.old.slot) }
    {
        let Some(mut talk) = self.slot.take() else {
            return Err(io::Error::from(ErrorKind::BrokenPipe));
        };
        let answer = talk.read(&mut self.watch, buf);
        self.slot.put(talk);
        answer
    }
}

impl<W: Wire + Drop, K: Keeper + Drop, S: Slot<Talk<W, K>> + Drop> Sink for SocketSink<W, K, S> {
    ghost use Rattle.std.specs.Prelude.{[], Some, None, max};

    ghost told = { λ s. told_by W.outgoing (S.held s.slot) };

    ghost faults = { λ s. s.faults };

    ghost takes = { λ before bytes after. (after.cut ≡ before.cut)
        × LiesAgain (TakesFor W.outgoing before.cut bytes) (S.held before.slot) (S.held after.slot)
        × (S.held before.slot ≡ Some None → bytes ≡ []) };

    ghost held = { λ before cut after. (after.cut ≡ max before.cut cut) × (after.slot ≡ before.slot) };

    fn write(&mut self, piece: &[u8]) -> Pushed {
        let taken = match self.slot.take() {
            Some(mut talk) => {
                let taken = talk.take(self.cut, piece);
                self.slot.put(talk);
                taken
            }
            None => Pushed::Failed,
        };
        if taken == Pushed::Failed {
            self.faults = self.faults.saturating_add(1);
        }
        taken
    }

    fn write_both(&mut self, first: &[u8], second: &[u8]) -> PushedBoth {
        let taken = match self.slot.take() {
            Some(mut talk) => {
                let taken = talk.take_both(self.cut, first, second);
                self.slot.put(talk);
                taken
            }
            None => PushedBoth::Failed(0),
        };
        if let PushedBoth::Failed(_) = taken {
            self.faults = self.faults.saturating_add(1);
        }
        taken
    }

    fn hold_until(&mut self, cut: u64) {
        self.cut = self.cut.max(cut);
    }
}

/// The reading half is let go: the connection ends.
pub(crate) fn end_talk<W: Wire + Drop, K: Keeper + Drop, S: Slot<Talk<W, K>>, T: Watch>(
    watch: &mut T,
    slot: &mut S,
)
    ensures same { told_by W.outgoing (S.held slot.new) ≡ told_by W.outgoing (S.held slot.old) }
    ensures sent { LiesAgain (WentOut W.outgoing) (S.held slot.old) (S.held slot.new) }
{
    if let Some(mut talk) = slot.take() {
        talk.end(watch);
        slot.put(talk);
    }
}
