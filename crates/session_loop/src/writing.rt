// Whole pieces into a sink.
ghost use Rattle.std.specs.Prelude.{◌≡◌, ◌≤◌, ◌+◌, ◌++◌, ◌⊎◌, drop, length, true, false};
ghost use Rattle.rail_io.specs.Faults.{Rose};
ghost use Rattle.session_loop.specs.Answered.{answer_bytes};
ghost use Rattle.session_loop.specs.Moments.{PermitsAnswer, PermitsPiece};
ghost use Rattle.session_loop.specs.Writes.{Writes, Hands, HandsFor, showing};

use crate::outlet::Outlet;
use http_wire::{Answer, Body};
use rail_io::{Pushed, PushedBoth, Sink};

/// Writes all of the piece, and answers true, or a front of it, where the sink fails.
pub fn write_all<K: Sink>(sink: &mut K, piece: &[u8]) -> bool
    ensures writes { Writes (K.told sink.old) (K.told sink.new) piece.now result }
    ensures never_falls { K.faults sink.old ≤ K.faults sink.new }
    ensures cause { result ≡ false → Rose (K.faults sink.old) (K.faults sink.new) }
    ensures steady { result ≡ true → K.faults sink.new ≡ K.faults sink.old }
{
    hand_all(sink, piece)
}

/// Writes all of the piece, of which the sink permits all that is left at each moment.
fn hand_all<K: Outlet>(sink: &mut K, piece: &[u8]) -> bool
    requires permits { PermitsPiece K.permits (showing K.told K.takes K.held) sink.old piece.now }
    ensures hands { Hands (showing K.told K.takes K.held) sink.old sink.new piece.now result }
    ensures never_falls { K.faults sink.old ≤ K.faults sink.new }
    ensures cause { result ≡ false → Rose (K.faults sink.old) (K.faults sink.new) }
    ensures steady { result ≡ true → K.faults sink.new ≡ K.faults sink.old }
{
    let mut rest = piece;
    while !rest.is_empty() {
        match sink.hand(rest) {
            Pushed::Took(count) => rest = &rest[count..],
            Pushed::Failed => return false,
        }
    }
    true
}

/// What is left of both pieces after that many bytes of them.
fn behind<'a>(first: &'a [u8], second: &'a [u8], count: usize) -> (&'a [u8], &'a [u8])
    requires { count ≤ length (first.now ++ second.now) }
    ensures left { result.0.now ++ result.1.now ≡ drop count (first.now ++ second.now) }
    ensures less { length result.0.now + count ≤ length first.now ⊎ length result.0.now ≡ 0 }
{
    if count < first.len() {
        return (&first[count..], second);
    }
    (&first[first.len()..], &second[count - first.len()..])
}

/// Writes both pieces, one after the other, without joining them: together where the sink can.
#[inline(never)]
fn hand_two<K: Outlet>(sink: &mut K, first: &[u8], second: &[u8]) -> bool
    requires permits { PermitsPiece K.permits (showing K.told K.takes K.held) sink.old (first.now ++ second.now) }
    ensures hands { Hands (showing K.told K.takes K.held) sink.old sink.new (first.now ++ second.now) result }
    ensures never_falls { K.faults sink.old ≤ K.faults sink.new }
    ensures cause { result ≡ false → Rose (K.faults sink.old) (K.faults sink.new) }
    ensures steady { result ≡ true → K.faults sink.new ≡ K.faults sink.old }
{
    let mut rest = first;
    let mut left = second;
    while !rest.is_empty() {
        match sink.hand_both(rest, left) {
            PushedBoth::Took(count) => (rest, left) = behind(rest, left, count),
            PushedBoth::Failed(_) => return false,
        }
    }
    hand_all(sink, left)
}

/// Writes head and body one after the other, without joining them, and drops the answer. Before the first byte the sink
/// is told after which cut they may leave, where the answer has one. It takes the answer apart, so that one that an
/// inlined call made never stands in memory as a whole: it is large to clear and to copy.
#[inline(always)]
pub fn write_answer<K: Outlet>(sink: &mut K, answer: Answer) -> bool
    requires permits { PermitsAnswer K.permits (showing K.told K.takes K.held) sink.old
        answer.after (answer_bytes answer) }
    ensures hands { HandsFor (showing K.told K.takes K.held) sink.old sink.new
        answer.after (answer_bytes answer) result }
    ensures never_falls { K.faults sink.old ≤ K.faults sink.new }
    ensures cause { result ≡ false → Rose (K.faults sink.old) (K.faults sink.new) }
    ensures steady { result ≡ true → K.faults sink.new ≡ K.faults sink.old }
{
    let Answer { head, body, after } = answer;
    if after != 0 {
        sink.hold_for(after);
    }
    match body {
        Body::Small(text) => hand_two(sink, head.as_slice(), text.as_slice()),
        Body::Large(text) => hand_two(sink, head.as_slice(), text.as_slice()),
    }
}
