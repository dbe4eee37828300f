//! A sink whose answers are counted.
ghost use Rattle.std.specs.Prelude.{◌≡◌, ◌≤◌, ◌<◌, ◌++◌, ℕ, List, true, false, length, replicate};
ghost use Rattle.std.specs.Prelude.{IfOk, IfSome, MatchOption};
ghost use Rattle.rail_io.specs.declared.sink.Pushed.TheVariants.{Failed};
ghost use Rattle.rail_io.specs.Faults.{Rose};
ghost use Rattle.rail_io.specs.Told.{Pushes, PushesBoth, HasFailed};
ghost use Rattle.host_window.specs.Counting.{Turns};
ghost use Rattle.host_window.specs.Counted.{IsPlain, NotesIn, number_of_both, number_taken, label_in};

use crate::counters::StreamCounts;
use crate::heads::label_of;
use crate::labels::STATUSES;
use crate::noted::{Noted, note_plain};
use crate::turn::Turn;
use rail_io::{Pushed, PushedBoth, Sink};
use std::alloc::{AllocError, Global};

/// Writes as its sink does, and counts answers and bytes, where there are counts.
#[derive(Drop)]
pub struct CountingSink<'c, K> {
    pub(crate) sink: K,
    pub(crate) counts: Noted<'c>,
    /// Says which writes begin an answer.
    pub(crate) turn: Turn,
}

impl<'c, K: Sink> CountingSink<'c, K> {
    /// Before this sink, to which no answer is being written.
    pub fn of(sink: K, counts: Option<&'c StreamCounts>) -> CountingSink<'c, K>
        ensures sink { result.sink ≡ sink }
        ensures turn { result.turn.left ≡ 0 }
    {
        let counts = match counts {
            Some(counts) => Noted::Shared(counts),
            None => Noted::Nowhere,
        };
        CountingSink {
            sink,
            counts,
            turn: Turn::new(),
        }
    }
}

impl<'c, K: Sink + Drop> CountingSink<'c, K> {
    /// The same, with counts of its own in memory, which are all 0.
    pub fn plain(alloc: Global, sink: K) -> Result<CountingSink<'c, K>, AllocError>
        ensures sink { IfOk result (λ s. s.sink ≡ sink) }
        ensures turn { IfOk result (λ s. s.turn.left ≡ 0) }
        ensures counts { IfOk result (λ s. IsPlain s.counts (replicate 16 0)) }
    {
        let counts = [0; STATUSES.len()].to_vec(alloc)?;
        Ok(CountingSink {
            sink,
            counts: Noted::Plain(counts),
            turn: Turn::new(),
        })
    }
}

impl<K> CountingSink<'_, K> {
    /// The counts by status, where they stand in memory.
    pub fn counts(&self) -> &[u64]
        ensures { (counts : List ℕ) → IsPlain self.now.counts counts → result.now ≡ counts }
    {
        match &self.counts {
            Noted::Plain(counts) => counts,
            _ => &[],
        }
    }
}

// Of a write of two pieces that many bytes were taken: the label of the answer that has begun with them, if one has.
#[inline(always)]
fn begun(turn: &mut Turn, first: &[u8], second: &[u8], taken: usize) -> Option<usize>
    requires some { 0 < taken }
    ensures turns { MatchOption result
        (Turns turn.old.left (length (first.now ++ second.now)) taken false turn.new.left)
        (λ _. Turns turn.old.left (length (first.now ++ second.now)) taken true turn.new.left) }
    ensures label { IfSome result (λ label. label ≡ label_in (first.now ++ second.now)) }
{
    if turn.begins(first.len() + second.len(), taken) {
        return Some(label_of(first, second));
    }
    None
}

impl<K: Sink> CountingSink<'_, K> {
    // Counts what a write of two pieces came to, of which that many bytes were taken: these bytes, and the answer where
    // they are its first.
    #[inline(always)]
    fn note(&mut self, first: &[u8], second: &[u8], taken: usize)
        requires some { 0 < taken }
        ensures same { self.new.sink ≡ self.old.sink }
        ensures noted { NotesIn self.old.counts self.old.turn.left (first.now ++ second.now) taken
            self.new.counts self.new.turn.left }
    {
        match &self.counts {
            Noted::Nowhere => {}
            Noted::Shared(counts) => {
                counts.note_sent(taken);
                if let Some(label) = begun(&mut self.turn, first, second, taken) {
                    counts.note_answer(label, second);
                }
            }
            Noted::Plain(_) => self.note_apart(first, second, taken),
        }
    }

    // The same where counts stand in memory.
    #[cold]
    #[inline(never)]
    fn note_apart(&mut self, first: &[u8], second: &[u8], taken: usize)
        requires some { 0 < taken }
        ensures same { self.new.sink ≡ self.old.sink }
        ensures noted { NotesIn self.old.counts self.old.turn.left (first.now ++ second.now) taken
            self.new.counts self.new.turn.left }
    {
        if let Noted::Plain(counts) = &mut self.counts {
            if let Some(label) = begun(&mut self.turn, first, second, taken) {
                note_plain(counts, label);
            }
        }
    }

    // A write failed.
    #[cold]
    #[inline(never)]
    fn note_failed(&mut self)
        ensures { self.new ≡ self.old }
    {
        if let Noted::Shared(counts) = &self.counts {
            counts.note_unwritten();
        }
    }

    /// Writes as `Sink::write` does.
    #[inline(always)]
    pub(crate) fn push(&mut self, piece: &[u8]) -> Pushed
        requires { 0 < length piece.now }
        ensures pushes { Pushes (K.told self.old.sink) (K.told self.new.sink) piece.now result }
        ensures never_falls { K.faults self.old.sink ≤ K.faults self.new.sink }
        ensures cause { result ≡ Failed → Rose (K.faults self.old.sink) (K.faults self.new.sink) }
        ensures steady { (result ≡ Failed → ⊥) → K.faults self.new.sink ≡ K.faults self.old.sink }
        ensures noted { NotesIn self.old.counts self.old.turn.left piece.now (number_taken result)
            self.new.counts self.new.turn.left }
    {
        let pushed = self.sink.write(piece);
        match pushed {
            Pushed::Took(taken) => self.note(piece, b"", taken),
            Pushed::Failed => self.note_failed(),
        }
        pushed
    }

    /// Writes as `Sink::write_both` does.
    #[inline(always)]
    pub(crate) fn push_both(&mut self, first: &[u8], second: &[u8]) -> PushedBoth
        requires { 0 < length first.now }
        ensures pushes { PushesBoth (K.told self.old.sink) (K.told self.new.sink) (first.now ++ second.now) result }
        ensures never_falls { K.faults self.old.sink ≤ K.faults self.new.sink }
        ensures cause { HasFailed result → Rose (K.faults self.old.sink) (K.faults self.new.sink) }
        ensures steady { (HasFailed result → ⊥) → K.faults self.new.sink ≡ K.faults self.old.sink }
        ensures noted { NotesIn self.old.counts self.old.turn.left (first.now ++ second.now) (number_of_both result)
            self.new.counts self.new.turn.left }
    {
        let pushed = self.sink.write_both(first, second);
        match pushed {
            PushedBoth::Took(taken) => self.note(first, second, taken),
            PushedBoth::Failed(taken) => {
                self.note_failed();
                if taken != 0 {
                    self.note(first, second, taken);
                }
            }
        }
        pushed
    }

    /// Hands on which cut is to be kept first, as `Sink::hold_until` does.
    pub(crate) fn hold(&mut self, cut: u64)
        ensures held { K.held self.old.sink cut self.new.sink }
        ensures same { K.told self.new.sink ≡ K.told self.old.sink }
        ensures faults { K.faults self.new.sink ≡ K.faults self.old.sink }
        ensures turn { self.new.turn ≡ self.old.turn }
        ensures counts { self.new.counts ≡ self.old.counts }
    {
        self.sink.hold_until(cut);
    }
}

impl<K: Sink> Sink for CountingSink<'_, K> {
    ghost told = { λ s. K.told s.sink };

    ghost faults = { λ s. K.faults s.sink };

    ghost held = { λ before cut after. K.held before.sink cut after.sink };

    #[inline(always)]
    fn write(&mut self, piece: &[u8]) -> Pushed {
        self.push(piece)
    }

    #[inline(always)]
    fn write_both(&mut self, first: &[u8], second: &[u8]) -> PushedBoth {
        self.push_both(first, second)
    }

    fn hold_until(&mut self, cut: u64) {
        self.hold(cut);
    }
}
