// Bytes for a sink that are held back, to be sent together.
ghost use Rattle.std.specs.Prelude.{◌≡◌, ◌↔◌, ◌≤◌, ◌<◌, ◌-◌, ◌++◌, [], IfOk, length, drop, true, false};
ghost use Rattle.rail_io.specs.Faults.{Rose};
ghost use Rattle.rail_io.specs.Told.{Pushes, PushesBoth, HasFailed, with_end};
ghost use Rattle.rail_io.specs.declared.sink.Pushed.TheVariants.{Failed, Took};
ghost use Rattle.rail_io.specs.declared.sink.PushedBoth.TheVariants.{Took as TookBoth};
ghost use Rattle.host_io.specs.Outbox.{Fits, IsInRoom, Stays, TakesSome, with_piece};

use rail_io::{Pushed, PushedBoth, Sink};
use std::alloc::{AllocError, Global};
use std::marker::Model;

/// The most bytes that are held back.
const HELD_ROOM: usize = 65_536;

/// Writes the second piece with the first, which may be empty, in front of it, by one call of the sink.
fn write_behind<K: Sink>(sink: &mut K, first: &[u8], second: &[u8]) -> PushedBoth
    requires { 0 < length second.now }
    ensures pushes { PushesBoth (K.told sink.old) (K.told sink.new) (first.now ++ second.now) result }
    ensures never_falls { K.faults sink.old ≤ K.faults sink.new }
    ensures cause { HasFailed result → Rose (K.faults sink.old) (K.faults sink.new) }
    ensures steady { (HasFailed result → ⊥) → K.faults sink.new ≡ K.faults sink.old }
    ensures stays { Stays K.takes sink.old sink.new }
{
    if first.is_empty() {
        return sink.write_both(second, first);
    }
    sink.write_both(first, second)
}

/// Bytes that were taken for a sink which hasn't got them yet, at most 65,536. The sink gets them in their order, and
/// each once.
#[derive(Drop)]
pub struct Outbox {
    bytes: Vec<u8>,
    /// How many of these the sink has got.
    sent: usize,
}

impl Model for Outbox {
    ghost use Rattle.std.specs.Prelude.{drop, vec_len, vec_capacity};
    ghost use Rattle.host_io.specs.Outbox.{Lies, OutboxView};

    ghost Value = { OutboxView };

    ghost view = { λ o. record { held = drop o.sent o.bytes.items; used = vec_len o.bytes } };

    ghost invariant = { λ o. Lies o.sent (vec_len o.bytes) (vec_capacity o.bytes) };
}

impl Outbox {
    /// An outbox that holds nothing back. It takes all its memory here.
    pub fn new(alloc: Global) -> Result<Outbox, AllocError>
        ensures held { IfOk result (λ outbox. outbox.held ≡ []) }
        ensures unused { IfOk result (λ outbox. outbox.used ≡ 0) }
    {
        Ok(Outbox {
            bytes: Vec::with_capacity(alloc, HELD_ROOM)?,
            sent: 0,
        })
    }

    /// Sends what is held back: then all the room is free again. Where the sink fails, what it hasn't got stays held.
    pub fn send<K: Sink>(&mut self, sink: &mut K) -> bool
        ensures told { with_end (K.told sink.new) (self.new.held) ≡ with_end (K.told sink.old) (self.old.held) }
        ensures all { result ≡ true → self.new.held ≡ [] }
        ensures never_falls { K.faults sink.old ≤ K.faults sink.new }
        ensures cause { result ≡ false → Rose (K.faults sink.old) (K.faults sink.new) }
        ensures steady { result ≡ true → K.faults sink.new ≡ K.faults sink.old }
        ensures unused { result ≡ true → self.new.used ≡ 0 }
        ensures room { IsInRoom self.new }
        ensures stays { Stays K.takes sink.old sink.new }
    {
        while self.sent < self.bytes.len() {
            match sink.write(&self.bytes[self.sent..]) {
                Pushed::Took(count) => self.sent += count,
                Pushed::Failed => return false,
            }
        }
        self.bytes.clear();
        self.sent = 0;
        true
    }

    /// Holds the piece back, exactly where there is room for it.
    fn hold(&mut self, piece: &[u8]) -> bool
        ensures held { result ≡ true → self.new ≡ with_piece self.old piece.now }
        ensures full { result ≡ false → self.new ≡ self.old }
        ensures fits { (result ≡ true) ↔ Fits self.old piece.now }
        ensures room { IsInRoom self.new }
    {
        piece.len() <= HELD_ROOM
            && self.bytes.len() <= HELD_ROOM - piece.len()
            && self.bytes.extend_from_slice(piece).is_ok()
    }

    /// Takes some of the piece after what is held back: all of it, and with no call of the sink, where it fits.
    pub fn write<K: Sink>(&mut self, sink: &mut K, piece: &[u8]) -> Pushed
        requires { 0 < length piece.now }
        ensures pushes { Pushes
            (with_end (K.told sink.old) (self.old.held)) (with_end (K.told sink.new) (self.new.held)) piece.now result }
        ensures gathers { Fits self.old piece.now
            → (sink.new ≡ sink.old) × (self.new ≡ with_piece self.old piece.now) × (result ≡ Took (length piece.now)) }
        ensures never_falls { K.faults sink.old ≤ K.faults sink.new }
        ensures cause { result ≡ Failed → Rose (K.faults sink.old) (K.faults sink.new) }
        ensures steady { (result ≡ Failed → ⊥) → K.faults sink.new ≡ K.faults sink.old }
        ensures room { IsInRoom self.new }
        ensures stays { Stays K.takes sink.old sink.new }
    {
        if self.hold(piece) {
            return Pushed::Took(piece.len());
        }
        if !self.send(sink) {
            return Pushed::Failed;
        }
        if self.hold(piece) {
            return Pushed::Took(piece.len());
        }
        sink.write(piece)
    }

    /// Lets go of the first bytes of what is held back and of what follows it, and answers how many of them are of what
    /// follows.
    fn let_go(&mut self, count: usize) -> usize
        ensures held { self.new.held ≡ drop count self.old.held }
        ensures behind { result ≡ count - length self.old.held }
        ensures room { IsInRoom self.new }
    {
        let held = self.bytes.len() - self.sent;
        if count < held {
            self.sent += count;
            return 0;
        }
        self.bytes.clear();
        self.sent = 0;
        count - held
    }

    /// Sends what is held back with the piece after it, by one call of the sink, and answers how much of the piece is
    /// out: maybe nothing.
    fn send_with<K: Sink>(&mut self, sink: &mut K, piece: &[u8]) -> PushedBoth
        requires { 0 < length piece.now }
        ensures takes { TakesSome
            (with_end (K.told sink.old) (self.old.held)) (with_end (K.told sink.new) (self.new.held)) piece.now result }
        ensures never_falls { K.faults sink.old ≤ K.faults sink.new }
        ensures cause { HasFailed result → Rose (K.faults sink.old) (K.faults sink.new) }
        ensures steady { (HasFailed result → ⊥) → K.faults sink.new ≡ K.faults sink.old }
        ensures room { IsInRoom self.new }
        ensures stays { Stays K.takes sink.old sink.new }
    {
        match write_behind(sink, &self.bytes[self.sent..], piece) {
            PushedBoth::Took(count) => PushedBoth::Took(self.let_go(count)),
            PushedBoth::Failed(count) => PushedBoth::Failed(self.let_go(count)),
        }
    }

    /// Takes some of both pieces, one after the other, after what is held back: all of them, and with no call of the
    /// sink, where they fit. Where the second doesn't, it goes out with what is held back, by one call.
    pub fn write_both<K: Sink>(&mut self, sink: &mut K, first: &[u8], second: &[u8]) -> PushedBoth
        requires { 0 < length first.now }
        ensures pushes { PushesBoth (with_end (K.told sink.old) (self.old.held))
            (with_end (K.told sink.new) (self.new.held)) (first.now ++ second.now) result }
        ensures gathers { Fits self.old (first.now ++ second.now) → (sink.new ≡ sink.old)
            × (self.new ≡ with_piece self.old (first.now ++ second.now))
            × (result ≡ TookBoth (length (first.now ++ second.now))) }
        ensures never_falls { K.faults sink.old ≤ K.faults sink.new }
        ensures cause { HasFailed result → Rose (K.faults sink.old) (K.faults sink.new) }
        ensures steady { (HasFailed result → ⊥) → K.faults sink.new ≡ K.faults sink.old }
        ensures room { IsInRoom self.new }
        ensures stays { Stays K.takes sink.old sink.new }
    {
        let Pushed::Took(count) = self.write(sink, first) else {
            return PushedBoth::Failed(0);
        };
        if count < first.len() || second.is_empty() {
            return PushedBoth::Took(count);
        }
        if self.hold(second) {
            return PushedBoth::Took(count + second.len());
        }
        match self.send_with(sink, second) {
            PushedBoth::Took(more) => PushedBoth::Took(count + more),
            PushedBoth::Failed(more) => PushedBoth::Failed(count + more),
        }
    }
}
