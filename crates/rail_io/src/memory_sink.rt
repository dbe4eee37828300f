// A sink over memory.
ghost use Rattle.std.specs.Prelude.{◌≡◌, [], Some};

use crate::{Pushed, PushedBoth, Sink};
use std::alloc::Global;

/// Keeps the bytes that it takes. `fails` lists the writes that are to fail, counted from 1. Where
/// there is no memory to grow, the write takes nothing and fails.
#[derive(Drop)]
pub struct VecSink {
    bytes: Vec<u8>,
    fails: Vec<u64>,
    calls: u64,
    faults: u64,
}

impl VecSink {
    ghost use Rattle.rail_io.specs.Memory.{sink_taken, sink_faults, sink_calls, sink_fails};

    /// An empty sink, whose listed writes fail.
    pub fn new(alloc: Global, fails: Vec<u64>) -> Self
        ensures taken { sink_taken result ≡ [] }
        ensures faults { sink_faults result ≡ 0 }
        ensures calls { sink_calls result ≡ 0 }
        ensures fails { sink_fails result ≡ fails.items }
    {
        VecSink {
            bytes: Vec::new(alloc),
            fails,
            calls: 0,
            faults: 0,
        }
    }

    /// The bytes taken.
    pub fn taken(&self) -> &[u8]
        ensures { result.now ≡ sink_taken self.now }
    {
        &self.bytes
    }
}

impl Sink for VecSink {
    ghost use Rattle.std.specs.Prelude.{◌≤◌, ◌<◌, ◌++◌, length, Contains};
    ghost use Rattle.rail_io.specs.declared.sink.Pushed.TheVariants.{Took, Failed};
    ghost use Rattle.rail_io.specs.Faults.{Rose};
    ghost use Rattle.rail_io.specs.Told.{Pushes, PushesBoth, HasFailed};
    ghost use Rattle.rail_io.specs.Memory.{sink_taken, sink_faults, sink_calls, sink_fails, IsOneCallMore, WritesInTurn};

    ghost told = { λ s. Some s.bytes.items };

    ghost faults = { λ s. s.faults };

    fn write(&mut self, piece: &[u8]) -> Pushed
        requires { 0 < length piece.now }
        ensures pushes { Pushes (Some (sink_taken self.old)) (Some (sink_taken self.new)) piece.now result }
        ensures never_falls { sink_faults self.old ≤ sink_faults self.new }
        ensures cause { result ≡ Failed → Rose (sink_faults self.old) (sink_faults self.new) }
        ensures steady { (result ≡ Failed → ⊥) → sink_faults self.new ≡ sink_faults self.old }
        ensures calls { IsOneCallMore (sink_calls self.old) (sink_calls self.new) }
        ensures listed { Contains (sink_fails self.old) (sink_calls self.new) → result ≡ Failed }
        ensures whole { (result ≡ Failed → ⊥) → result ≡ Took (length piece.now) }
        ensures fails { sink_fails self.new ≡ sink_fails self.old }
    {
        self.calls = self.calls.saturating_add(1);
        if !self.fails.contains(&self.calls) && self.bytes.extend_from_slice(piece).is_ok() {
            return Pushed::Took(piece.len());
        }
        self.faults = self.faults.saturating_add(1);
        Pushed::Failed
    }

    fn write_both(&mut self, first: &[u8], second: &[u8]) -> PushedBoth
        requires { 0 < length first.now }
        ensures pushes { PushesBoth (Some (sink_taken self.old)) (Some (sink_taken self.new))
            (first.now ++ second.now) result }
        ensures never_falls { sink_faults self.old ≤ sink_faults self.new }
        ensures cause { HasFailed result → Rose (sink_faults self.old) (sink_faults self.new) }
        ensures steady { (HasFailed result → ⊥) → sink_faults self.new ≡ sink_faults self.old }
        ensures in_turn { WritesInTurn (sink_fails self.old) (sink_calls self.old) (sink_calls self.new)
            first.now second.now result }
        ensures fails { sink_fails self.new ≡ sink_fails self.old }
    {
        let Pushed::Took(count) = self.write(first) else {
            return PushedBoth::Failed(0);
        };
        if second.is_empty() {
            return PushedBoth::Took(count);
        }
        match self.write(second) {
            Pushed::Took(more) => PushedBoth::Took(count + more),
            Pushed::Failed => PushedBoth::Failed(count),
        }
    }

    fn hold_until(&mut self, cut: u64) {
        let _ = cut;
    }
}
