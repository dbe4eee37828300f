// A source over memory.
ghost use Rattle.std.specs.Prelude.{◌≡◌, Some, drop, ◌≤◌, vec_len};

use crate::{Pulled, Source};

/// Hands out bytes of memory. `fails` lists the reads that are to fail, counted from 1.
#[derive(Drop)]
pub struct BytesSource {
    bytes: Vec<u8>,
    given: usize,
    fails: Vec<u64>,
    calls: u64,
    faults: u64,
    ghost in_range: { given ≤ vec_len bytes },
}

impl BytesSource {
    ghost use Rattle.rail_io.specs.Memory.{source_left, source_faults, source_calls, source_fails};

    /// A source of these bytes, whose listed reads fail.
    pub fn new(bytes: Vec<u8>, fails: Vec<u64>) -> Self
        ensures left { source_left result ≡ bytes.items }
        ensures faults { source_faults result ≡ 0 }
        ensures calls { source_calls result ≡ 0 }
        ensures fails { source_fails result ≡ fails.items }
    {
        BytesSource {
            bytes,
            given: 0,
            fails,
            calls: 0,
            faults: 0,
        }
    }
}

impl Source for BytesSource {
    ghost use Rattle.std.specs.Prelude.{◌↔◌, ◌<◌, length, Contains};
    ghost use Rattle.rail_io.specs.declared.source.Pulled.TheVariants.{Failed};
    ghost use Rattle.rail_io.specs.Faults.{Rose};
    ghost use Rattle.rail_io.specs.Told.{Pulls};
    ghost use Rattle.rail_io.specs.Memory.{source_left, source_faults, source_calls, source_fails, IsOneCallMore};

    ghost told = { λ s. Some (drop s.given s.bytes.items) };

    ghost faults = { λ s. s.faults };

    fn read(&mut self, room: &mut [u8]) -> Pulled
        requires { 0 < length room.old }
        ensures pulls { Pulls (Some (source_left self.old)) (Some (source_left self.new)) room.new result }
        ensures never_falls { source_faults self.old ≤ source_faults self.new }
        ensures cause { result ≡ Failed → Rose (source_faults self.old) (source_faults self.new) }
        ensures steady { (result ≡ Failed → ⊥) → source_faults self.new ≡ source_faults self.old }
        ensures calls { IsOneCallMore (source_calls self.old) (source_calls self.new) }
        ensures listed { (result ≡ Failed) ↔ Contains (source_fails self.old) (source_calls self.new) }
        ensures fails { source_fails self.new ≡ source_fails self.old }
    {
        self.calls = self.calls.saturating_add(1);
        if self.fails.contains(&self.calls) {
            self.faults = self.faults.saturating_add(1);
            return Pulled::Failed;
        }
        let left = &self.bytes[self.given..];
        if left.is_empty() {
            return Pulled::End;
        }
        let count = left.len().min(room.len());
        room[..count].copy_from_slice(&left[..count]);
        self.given += count;
        Pulled::Got(count)
    }
}
