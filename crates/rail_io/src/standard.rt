// A reader and a writer of std as source and sink.
//
// As sources and sinks they tell no content, since a reader of std may begin to tell its bytes at any call. Over one
// that tells them, each call's own clause says which bytes it handed on.
ghost use Rattle.std.specs.Prelude.{◌≡◌, None, IfOk, ◌≤◌, ◌<◌, ◌+◌, ◌++◌, length};
ghost use Rattle.std.specs.Io.KnownBytes.{ReadConsumes, WriteAppends};
ghost use Rattle.rail_io.specs.Standard.{PullsTold, PushesTold, PushesBothTold};

use crate::answers::{pulled_of, pushed_of};
use crate::{Pulled, Pushed, PushedBoth, Sink, Source};
use arrayvec::ArrayVec;
use std::io;
use std::io::{ErrorKind, Read, Write};

/// How often a call of the system that was interrupted is made once more before it counts as failed.
pub const RETRIES: u32 = 1_000;

/// The most bytes of two pieces that one call of the writer gets together.
const JOINED: usize = 512;

/// Standard input, or another reader, as a source.
#[derive(Drop)]
pub struct ReaderSource<R: Read> {
    reader: R,
    faults: u64,
}

fn read_some<R: Read>(reader: &mut R, room: &mut [u8]) -> io::Result<usize>
    ensures bound { IfOk result (λ count. count ≤ length room.new) }
    ensures bytes { ReadConsumes (R.remaining reader.old) (R.remaining reader.new) result room.new }
{
    for _ in 0..RETRIES {
        match reader.read(room) {
            Err(error) if error.kind() == ErrorKind::Interrupted => {}
            outcome => return outcome,
        }
    }
    reader.read(room)
}

impl<R: Read> ReaderSource<R> {
    ghost use Rattle.rail_io.specs.Memory.{reader_faults};

    /// A source of what the reader reads, which hasn't failed.
    pub fn new(reader: R) -> Self
        ensures faults { reader_faults result ≡ 0 }
    {
        ReaderSource { reader, faults: 0 }
    }
}

impl<R: Read> Source for ReaderSource<R> {
    ghost use Rattle.rail_io.specs.declared.source.Pulled.TheVariants.{Failed};
    ghost use Rattle.rail_io.specs.Faults.{Rose};
    ghost use Rattle.rail_io.specs.Told.{Pulls};
    ghost use Rattle.rail_io.specs.Memory.{reader_faults};

    ghost told = { λ _. None };

    ghost faults = { λ s. s.faults };

    fn read(&mut self, room: &mut [u8]) -> Pulled
        requires { 0 < length room.old }
        ensures pulls { Pulls None None room.new result }
        ensures never_falls { reader_faults self.old ≤ reader_faults self.new }
        ensures cause { result ≡ Failed → Rose (reader_faults self.old) (reader_faults self.new) }
        ensures steady { (result ≡ Failed → ⊥) → reader_faults self.new ≡ reader_faults self.old }
        ensures hands_on { PullsTold (R.remaining self.old.reader) (R.remaining self.new.reader) room.new result }
    {
        let pulled = pulled_of(read_some(&mut self.reader, room));
        if let Pulled::Failed = pulled {
            self.faults = self.faults.saturating_add(1);
        }
        pulled
    }
}

/// Standard output or error, or another writer, as a sink.
#[derive(Drop)]
pub struct WriterSink<W: Write> {
    writer: W,
    faults: u64,
}

fn write_some<W: Write>(writer: &mut W, piece: &[u8]) -> io::Result<usize>
    ensures bound { IfOk result (λ count. count ≤ length piece.now) }
    ensures bytes { WriteAppends (W.contents writer.old) (W.contents writer.new) result piece.now }
{
    for _ in 0..RETRIES {
        match writer.write(piece) {
            Err(error) if error.kind() == ErrorKind::Interrupted => {}
            outcome => return outcome,
        }
    }
    writer.write(piece)
}

// Both pieces, one after the other.
fn joined(first: &[u8], second: &[u8]) -> ArrayVec<u8, JOINED>
    requires fit { length first.now + length second.now ≤ 512 }
    ensures both { result.items ≡ first.now ++ second.now }
{
    let mut both = ArrayVec::new();
    both.try_extend_from_slice(first).unwrap();
    both.try_extend_from_slice(second).unwrap();
    both
}

impl<W: Write> WriterSink<W> {
    ghost use Rattle.rail_io.specs.Memory.{writer_faults};

    /// A sink that writes to the writer, and that hasn't failed.
    pub fn new(writer: W) -> Self
        ensures faults { writer_faults result ≡ 0 }
    {
        WriterSink { writer, faults: 0 }
    }
}

impl<W: Write> Sink for WriterSink<W> {
    ghost use Rattle.rail_io.specs.declared.sink.Pushed.TheVariants.{Failed};
    ghost use Rattle.rail_io.specs.Faults.{Rose};
    ghost use Rattle.rail_io.specs.Told.{Pushes, PushesBoth, HasFailed};
    ghost use Rattle.rail_io.specs.Memory.{writer_faults};

    ghost told = { λ _. None };

    ghost faults = { λ s. s.faults };

    fn write(&mut self, piece: &[u8]) -> Pushed
        requires { 0 < length piece.now }
        ensures pushes { Pushes None None piece.now result }
        ensures never_falls { writer_faults self.old ≤ writer_faults self.new }
        ensures cause { result ≡ Failed → Rose (writer_faults self.old) (writer_faults self.new) }
        ensures steady { (result ≡ Failed → ⊥) → writer_faults self.new ≡ writer_faults self.old }
        ensures hands_on { PushesTold (W.contents self.old.writer) (W.contents self.new.writer) piece.now result }
    {
        let pushed = pushed_of(write_some(&mut self.writer, piece));
        if let Pushed::Failed = pushed {
            self.faults = self.faults.saturating_add(1);
        }
        pushed
    }

    // Two short pieces go by one call of the writer, which costs more than to copy them.
    fn write_both(&mut self, first: &[u8], second: &[u8]) -> PushedBoth
        requires { 0 < length first.now }
        ensures pushes { PushesBoth None None (first.now ++ second.now) result }
        ensures never_falls { writer_faults self.old ≤ writer_faults self.new }
        ensures cause { HasFailed result → Rose (writer_faults self.old) (writer_faults self.new) }
        ensures steady { (HasFailed result → ⊥) → writer_faults self.new ≡ writer_faults self.old }
        ensures hands_on { PushesBothTold (W.contents self.old.writer) (W.contents self.new.writer)
            (first.now ++ second.now) result }
    {
        if first.len() <= JOINED && second.len() <= JOINED - first.len() {
            let both = joined(first, second);
            return match self.write(both.as_slice()) {
                Pushed::Took(count) => PushedBoth::Took(count),
                Pushed::Failed => PushedBoth::Failed(0),
            };
        }
        let Pushed::Took(count) = self.write(first) else {
            return PushedBoth::Failed(0);
        };
        if count < first.len() || second.is_empty() {
            return PushedBoth::Took(count);
        }
        match self.write(second) {
            Pushed::Took(more) => PushedBoth::Took(count + more),
            Pushed::Failed => PushedBoth::Failed(count),
        }
    }

    fn hold_until(&mut self, cut: u64) {
        let _ = cut;
    }
}
