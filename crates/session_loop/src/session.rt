// One connection, request by request.
ghost use Rattle.std.specs.Prelude.{◌≡◌, ◌≤◌, ◌<◌, ◌++◌, ◌+◌, ℕ, List, Some, [], IfNone, true, false};
ghost use Rattle.http_wire.specs.declared.request.WireFault.{WireFault};
ghost use Rattle.rail_io.specs.Faults.{Rose};
ghost use Rattle.rail_io.specs.Told.{with_front, with_end};
ghost use Rattle.session_loop.specs.declared.end.ConnEnd.TheVariants.{ReadFault, WriteFault};
ghost use Rattle.session_loop.specs.Moments.{MayStep, MayWrite, PermitsAnswer};
ghost use Rattle.session_loop.specs.Session.{IsStep, IsEnd};
ghost use Rattle.session_loop.specs.Writes.{Handed, HandsFor, showing};

use crate::end::ConnEnd;
use crate::outlet::Outlet;
use crate::responder::Responder;
use crate::writing::write_answer;
use http_wire::{Intake, Next, WireFault};
use rail_io::{Sink, Source};

/// Answers what stands in a request's place, and writes the answer. It stands apart, since it is costly to clear the
/// room for an answer.
#[cold]
#[inline(never)]
fn refuse<K: Outlet, R: Responder>(sink: &mut K, responder: &mut R, fault: WireFault) -> bool
    requires permits { (answer : List ℕ) (cut : ℕ) → R.refuses responder.old fault answer
        → R.awaits responder.old cut responder.old
        → PermitsAnswer K.permits (showing K.told K.takes K.held) sink.old cut answer }
    ensures hands { (answer : List ℕ) × (cut : ℕ) × R.refuses responder.old fault answer
        × HandsFor (showing K.told K.takes K.held) sink.old sink.new cut answer result }
    ensures same { responder.new ≡ responder.old }
    ensures never_falls { K.faults sink.old ≤ K.faults sink.new }
    ensures cause { result ≡ false → Rose (K.faults sink.old) (K.faults sink.new) }
    ensures steady { result ≡ true → K.faults sink.new ≡ K.faults sink.old }
{
    let answer = responder.refuse(fault);
    write_answer(sink, answer)
}

/// Reads, answers and writes one request, or ends.
fn step<S: Source, K: Outlet, R: Responder>(
    intake: &mut Intake,
    source: &mut S,
    sink: &mut K,
    responder: &mut R,
) -> Option<ConnEnd>
    requires few { intake.old.given < 65536 }
    requires ready { R.ready responder.old }
    requires permits { (now : K) (piece : List ℕ)
        → MayStep R.answers R.refuses R.awaits (showing K.told K.takes K.held) (intake.old.given + 1) intake.old.unread
        responder.old (S.told source.old) sink.old now piece
        → K.permits now piece }
    ensures step { (pulled written : List ℕ)
        × (S.told source.old ≡ with_front pulled (S.told source.new))
        × Handed (showing K.told K.takes K.held) sink.old written sink.new
        × IsStep R.answers R.refuses (intake.old.given + 1) (intake.old.unread ++ pulled) intake.new.unread
        responder.old responder.new (S.told source.new) written result }
    ensures ready { R.ready responder.new }
    ensures given { IfNone result (intake.new.given ≡ intake.old.given + 1) }
    ensures source_faults { S.faults source.old ≤ S.faults source.new }
    ensures sink_faults { K.faults sink.old ≤ K.faults sink.new }
    ensures read_cause { result ≡ Some ReadFault → Rose (S.faults source.old) (S.faults source.new) }
    ensures write_cause { result ≡ Some WriteFault → Rose (K.faults sink.old) (K.faults sink.new) }
    ensures source_steady { (result ≡ Some ReadFault → ⊥) → S.faults source.new ≡ S.faults source.old }
    ensures sink_steady { (result ≡ Some WriteFault → ⊥) → K.faults sink.new ≡ K.faults sink.old }
{
    match intake.next_request(source) {
        Next::Request(request) => {
            let answer = responder.answer(intake, &request, request.last);
            if !write_answer(sink, answer) {
                return Some(ConnEnd::WriteFault);
            }
            if request.last {
                return Some(ConnEnd::Done);
            }
            None
        }
        Next::End => Some(ConnEnd::Done),
        Next::Cut => Some(ConnEnd::Cut),
        Next::ReadFault => Some(ConnEnd::ReadFault),
        Next::Bad(fault) => {
            if !refuse(sink, responder, fault) {
                return Some(ConnEnd::WriteFault);
            }
            Some(ConnEnd::Refused(fault))
        }
    }
}

/// Reads, answers and writes in turn until an end, as `run_session` does, into an outlet of which it is known that it
/// permits the next bytes of the defined answers. Into one that permits these alone no others are handed at any moment,
/// whether or not the session ever ends.
pub fn run_permitted<S: Source, K: Outlet, R: Responder>(
    intake: &mut Intake,
    source: &mut S,
    sink: &mut K,
    responder: &mut R,
) -> ConnEnd
    requires fresh { intake.old.given ≡ 0 }
    requires empty { intake.old.unread ≡ [] }
    requires ready { R.ready responder.old }
    requires permits { (now : K) (piece : List ℕ)
        → MayWrite R.answers R.refuses R.awaits (showing K.told K.takes K.held) responder.old (S.told source.old)
        sink.old now piece
        → K.permits now piece }
    ensures answers { (taken written : List ℕ)
        × (S.told source.old ≡ with_front taken (S.told source.new))
        × Handed (showing K.told K.takes K.held) sink.old written sink.new
        × IsEnd R.answers R.refuses responder.old responder.new taken (S.told source.new) written result }
    ensures ready { R.ready responder.new }
    ensures source_faults { S.faults source.old ≤ S.faults source.new }
    ensures sink_faults { K.faults sink.old ≤ K.faults sink.new }
    ensures read_cause { result ≡ ReadFault → Rose (S.faults source.old) (S.faults source.new) }
    ensures write_cause { result ≡ WriteFault → Rose (K.faults sink.old) (K.faults sink.new) }
    // A call that failed ends the session: at any other end the count is as it was.
    ensures source_steady { (result ≡ ReadFault → ⊥) → S.faults source.new ≡ S.faults source.old }
    ensures sink_steady { (result ≡ WriteFault → ⊥) → K.faults sink.new ≡ K.faults sink.old }
{
    'requests: loop {
        if let Some(end) = step(intake, source, sink, responder) {
            return end;
        }
    }
}

/// Reads, answers and writes in turn until an end. The intake is as its start gave it. Bytes after a
/// last request are left unread in the source or unused.
pub fn run_session<S: Source, K: Sink, R: Responder>(
    intake: &mut Intake,
    source: &mut S,
    sink: &mut K,
    responder: &mut R,
) -> ConnEnd
    requires fresh { intake.old.given ≡ 0 }
    requires empty { intake.old.unread ≡ [] }
    requires ready { R.ready responder.old }
    ensures answers { (taken written : List ℕ)
        × (S.told source.old ≡ with_front taken (S.told source.new))
        × (K.told sink.new ≡ with_end (K.told sink.old) written)
        × IsEnd R.answers R.refuses responder.old responder.new taken (S.told source.new) written result }
    ensures ready { R.ready responder.new }
    ensures source_faults { S.faults source.old ≤ S.faults source.new }
    ensures sink_faults { K.faults sink.old ≤ K.faults sink.new }
    ensures read_cause { result ≡ ReadFault → Rose (S.faults source.old) (S.faults source.new) }
    ensures write_cause { result ≡ WriteFault → Rose (K.faults sink.old) (K.faults sink.new) }
    // A call that failed ends the session: at any other end the count is as it was.
    ensures source_steady { (result ≡ ReadFault → ⊥) → S.faults source.new ≡ S.faults source.old }
    ensures sink_steady { (result ≡ WriteFault → ⊥) → K.faults sink.new ≡ K.faults sink.old }
{
    run_permitted(intake, source, sink, responder)
}
