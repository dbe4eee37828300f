// A connection, whose answers are held back until the next read.
ghost use Rattle.std.specs.Prelude.{◌≡◌, ◌≤◌, ◌<◌, ◌++◌, ◌⊎◌, [], IsOk, IfOk, OnOk, length, max, true};
ghost use Rattle.rail_io.specs.Told.{Pushes, PushesBoth};
ghost use Rattle.host_io.specs.Talks.{answered_by, drained, IsSetTo};
ghost use Rattle.host_io.specs.Wires.{Receives, limits_of};
ghost use Rattle.host_io.specs.Paces.{first_pace};

use crate::kept_line::KeptLine;
use crate::line::Line;
use crate::outbox::Outbox;
use crate::pace::Pace;
use crate::watch::Watch;
use crate::wire::Wire;
use rail_io::{Keeper, Pushed, PushedBoth, Sink};
use std::io;
use std::io::ErrorKind;

/// How long a drain waits for each piece, how long it takes as a whole, and how many pieces it reads at most.
const DRAIN_MILLISECONDS: u64 = 250;

const DRAIN_MOST_MILLISECONDS: u64 = 2_000;

const DRAIN_PIECES: u32 = 1_000_000;

const DRAIN_ROOM: usize = 16_384;

/// A connection as both its halves have it. Answers are held back until the next read, or until they are many: so one
/// call of the system sends the answers to all requests that one read gave.
#[derive(Drop)]
pub struct Talk<W: Wire + Drop, K: Keeper + Drop> {
    sink: KeptLine<W, K>,
    /// What was answered and isn't sent yet.
    outbox: Outbox,
    /// Whether something was answered since the last read.
    answered: bool,
    /// Whether a write has failed: then nothing more goes out.
    failed: bool,
    pace: Pace,
}

impl<W: Wire + Drop, K: Keeper + Drop> Talk<W, K> {
    /// A connection of which nothing has come and to which nothing went out.
    pub(crate) fn new(sink: KeptLine<W, K>, outbox: Outbox) -> Talk<W, K>
        ensures sink { result.sink ≡ sink }
        ensures outbox { result.outbox ≡ outbox }
        ensures pace { result.pace ≡ first_pace }
    {
        Talk {
            sink,
            outbox,
            answered: false,
            failed: false,
            pace: Pace::new(),
        }
    }

    // Sends what is held back. False where that fails.
    fn send_held(&mut self) -> bool
        ensures same { answered_by W.outgoing self.new ≡ answered_by W.outgoing self.old }
        ensures all { result ≡ true → self.new.outbox.held ≡ [] }
        ensures pace { (self.new.pace ≡ self.old.pace) × (self.new.answered ≡ self.old.answered)
            × (self.new.failed ≡ self.old.failed) }
        ensures left { W.incoming self.new.sink.line.wire ≡ W.incoming self.old.sink.line.wire }
        ensures limits { limits_of (W.settings self.new.sink.line.wire)
            ≡ limits_of (W.settings self.old.sink.line.wire) }
        ensures cut { self.new.sink.cut ≡ self.old.sink.cut }
    {
        self.outbox.send(&mut self.sink)
    }

    /// Sends what was answered, and says whether anything was since the last call. Once it has failed, nothing is sent.
    pub(crate) fn send_answers(&mut self) -> io::Result<bool>
        ensures same { answered_by W.outgoing self.new ≡ answered_by W.outgoing self.old }
        ensures all { IsOk result → self.new.outbox.held ≡ [] }
        ensures ended { (self.new.failed ≡ true) ⊎ (self.new.outbox.held ≡ []) }
        ensures pace { self.new.pace ≡ self.old.pace }
        ensures cut { self.new.sink.cut ≡ self.old.sink.cut }
        ensures left { W.incoming self.new.sink.line.wire ≡ W.incoming self.old.sink.line.wire }
        ensures limits { limits_of (W.settings self.new.sink.line.wire)
            ≡ limits_of (W.settings self.old.sink.line.wire) }
    {
        if self.failed {
            return Err(io::Error::from(ErrorKind::BrokenPipe));
        }
        if !self.send_held() {
            self.failed = true;
            return Err(io::Error::from(ErrorKind::BrokenPipe));
        }
        let answered = self.answered;
        self.answered = false;
        Ok(answered)
    }

    /// Takes some of an answer, to be sent with others. The connection is held for the cut of this number from then on.
    pub(crate) fn take(&mut self, cut: u64, piece: &[u8]) -> Pushed
        requires { 0 < length piece.now }
        ensures pushes { Pushes (answered_by W.outgoing self.old) (answered_by W.outgoing self.new) piece.now result }
        ensures held { (self.new.failed ≡ true) ⊎ (self.new.sink.cut ≡ max self.old.sink.cut cut) }
        ensures left { W.incoming self.new.sink.line.wire ≡ W.incoming self.old.sink.line.wire }
        ensures limits { limits_of (W.settings self.new.sink.line.wire)
            ≡ limits_of (W.settings self.old.sink.line.wire) }
    {
        if self.failed {
            return Pushed::Failed;
        }
        self.answered = true;
        self.sink.hold_until(cut);
        let taken = self.outbox.write(&mut self.sink, piece);
        self.failed = taken == Pushed::Failed;
        taken
    }

    /// Takes some of both pieces of an answer, to be sent with others, or at once where they are too long to be held.
    /// The connection is held for the cut of this number from then on.
    pub(crate) fn take_both(&mut self, cut: u64, first: &[u8], second: &[u8]) -> PushedBoth
        requires { 0 < length first.now }
        ensures pushes { PushesBoth (answered_by W.outgoing self.old) (answered_by W.outgoing self.new)
            (first.now ++ second.now) result }
        ensures held { (self.new.failed ≡ true) ⊎ (self.new.sink.cut ≡ max self.old.sink.cut cut) }
        ensures left { W.incoming self.new.sink.line.wire ≡ W.incoming self.old.sink.line.wire }
        ensures limits { limits_of (W.settings self.new.sink.line.wire)
            ≡ limits_of (W.settings self.old.sink.line.wire) }
    {
        if self.failed {
            return PushedBoth::Failed(0);
        }
        self.answered = true;
        self.sink.hold_until(cut);
        let taken = self.outbox.write_both(&mut self.sink, first, second);
        self.failed = matches!(taken, PushedBoth::Failed(_));
        taken
    }

    // Sends what was answered. Where anything was, the next request hasn't begun.
    fn send_all(&mut self) -> io::Result<()>
        ensures same { answered_by W.outgoing self.new ≡ answered_by W.outgoing self.old }
        ensures all { IsOk result → self.new.outbox.held ≡ [] }
        ensures rested { (self.new.pace ≡ self.old.pace) ⊎ (self.new.pace ≡ record self.old.pace { idle = true }) }
        ensures left { W.incoming self.new.sink.line.wire ≡ W.incoming self.old.sink.line.wire }
        ensures limits { limits_of (W.settings self.new.sink.line.wire)
            ≡ limits_of (W.settings self.old.sink.line.wire) }
    {
        if self.send_answers()? {
            self.pace.rest();
        }
        Ok(())
    }

    // Sets the time limit of the next read, which fails where none is left, or where the journal is lost.
    fn limit_read<T: Watch>(&mut self, watch: &mut T) -> io::Result<()>
        ensures same { answered_by W.outgoing self.new ≡ answered_by W.outgoing self.old }
        ensures held { self.new.outbox.held ≡ self.old.outbox.held }
        ensures left { W.incoming self.new.sink.line.wire ≡ W.incoming self.old.sink.line.wire }
        ensures limited { OnOk result (IsSetTo self.old.pace self.new.pace
            (limits_of (W.settings self.old.sink.line.wire)) (limits_of (W.settings self.new.sink.line.wire))) }
    {
        if self.sink.keeper.is_lost() {
            return Err(io::Error::from(ErrorKind::BrokenPipe));
        }
        if let Some(limit) = self.pace.next_limit(watch)? {
            self.sink.line.wire.set_read_limit(limit)?;
        }
        Ok(())
    }

    // What comes before a read.
    fn prepare<T: Watch>(&mut self, watch: &mut T) -> io::Result<()>
        ensures same { answered_by W.outgoing self.new ≡ answered_by W.outgoing self.old }
        ensures all { IsOk result → self.new.outbox.held ≡ [] }
        ensures left { W.incoming self.new.sink.line.wire ≡ W.incoming self.old.sink.line.wire }
        ensures limited { OnOk result (IsSetTo self.old.pace self.new.pace
            (limits_of (W.settings self.old.sink.line.wire)) (limits_of (W.settings self.new.sink.line.wire))) }
    {
        self.send_all()?;
        self.limit_read(watch)
    }

    /// Reads some of what has come, or waits for it. Where it gives bytes, all that was answered is sent, and its
    /// stream is set to the limit that its pace then has, or neither has changed. That it asks its pace for that limit
    /// first, and tells it what came, is read.
    pub(crate) fn read<T: Watch>(&mut self, watch: &mut T, room: &mut [u8]) -> io::Result<usize>
        ensures same { answered_by W.outgoing self.new ≡ answered_by W.outgoing self.old }
        ensures all { IsOk result → self.new.outbox.held ≡ [] }
        ensures sent { IsOk result → W.outgoing self.new.sink.line.wire ≡ answered_by W.outgoing self.old }
        ensures receives { Receives (W.incoming self.old.sink.line.wire) (W.incoming self.new.sink.line.wire)
            room.new result }
        ensures limited { OnOk result (IsSetTo self.old.pace self.new.pace
            (limits_of (W.settings self.old.sink.line.wire)) (limits_of (W.settings self.new.sink.line.wire))) }
    {
        let answer = match self.prepare(watch) {
            Ok(()) => self.sink.line.read(room),
            Err(error) => Err(error),
        };
        self.pace.note(&answer);
        answer
    }

    /// Sends what was answered. Where the other side hasn't ended the connection, it is to drain the stream then, so
    /// that the other side gets to read the last answer. Of that a clause speaks at `drain` alone.
    pub(crate) fn end<T: Watch>(&mut self, watch: &mut T)
        ensures same { answered_by W.outgoing self.new ≡ answered_by W.outgoing self.old }
        ensures sent { (self.new.failed ≡ true)
            ⊎ (W.outgoing self.new.sink.line.wire ≡ answered_by W.outgoing self.old) }
    {
        let _sent = self.send_answers();
        if self.pace.is_open() {
            let _drained = drain(watch, &mut self.sink.line);
        }
    }
}

/// Is to tell the other side that no more comes, and to read away what it still sends, for about two seconds at most.
/// Only the stream's end and limit have a clause, and that where it went well.
fn drain<W: Wire + Drop, T: Watch>(watch: &mut T, line: &mut Line<W>) -> io::Result<()>
    ensures sent { W.outgoing line.new.wire ≡ W.outgoing line.old.wire }
    ensures told { OnOk result (limits_of (W.settings line.new.wire) ≡ drained (limits_of (W.settings line.old.wire))) }
{
    let start = watch.look()?;
    line.wire.end_sending()?;
    line.wire.set_read_limit(DRAIN_MILLISECONDS)?;
    let mut room = [0u8; DRAIN_ROOM];
    for _piece in 0..DRAIN_PIECES {
        let none_left = line.read(&mut room)? == 0;
        if none_left || watch.look()?.saturating_sub(start) >= DRAIN_MOST_MILLISECONDS {
            return Ok(());
        }
    }
    Ok(())
}
