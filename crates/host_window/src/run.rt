//! A run in memory, and what is counted in it.
ghost use Rattle.std.specs.Prelude.{◌≡◌, ◌<◌, ◌+◌, ◌^◌, ℕ, List, Some, [], IfOk, length};
ghost use Rattle.std.specs.List.{All, sum};
ghost use Rattle.http_wire.specs.Requests.{RequestText};
ghost use Rattle.http_wire.specs.declared.request.WireFault.{WireFault};
ghost use Rattle.host_window.specs.Listed.{text_at};
ghost use Rattle.host_window.specs.Runs.{AddUp, AreCounted, IsRest, TookOf, raised};

use crate::listed::{Listed, Reply};
use crate::sink::CountingSink;
use http_wire::Intake;
use rail_io::{Pushed, PushedBoth, Sink, Source};
use session_loop::{Outlet, Responder, run_permitted};
use std::alloc::{AllocError, Global};
use std::marker::{Brand, PhantomData};

/// The answers of a responder, which follow from their number alone. The proof of a call picks them.
pub(crate) trait Script<R> {
    /// What responders are meant.
    ghost follows: { R → Type 0 };

    /// The text of such a responder's first answer, its second, and so on, counted from 0.
    ghost text: { ℕ → List ℕ };

    /// How many it has given.
    ghost given: { R → ℕ };
}

impl Script<Listed<'_>> for Brand {
    ghost use Rattle.std.specs.Prelude.{⊤};

    ghost follows = { λ _. ⊤ };

    ghost text = { λ _. [] };

    ghost given = { λ _. 0 };
}

/// A counting sink that may be handed only the rest of the next answer.
#[derive(Drop)]
struct ScriptOutlet<'c, K, R, P> {
    sink: CountingSink<'c, K>,
    script: PhantomData<(R, P)>,
}

impl<K: Sink, R, P: Script<R>> Outlet for ScriptOutlet<'_, K, R, P> {
    ghost told = { λ s. K.told s.sink.sink };

    ghost faults = { λ s. K.faults s.sink.sink };

    ghost takes = { λ before bytes after. TookOf P.text
        (record { told = K.told before.sink.sink; left = before.sink.turn.left; counts = before.sink.counts })
        bytes
        (record { told = K.told after.sink.sink; left = after.sink.turn.left; counts = after.sink.counts }) };

    ghost held = { λ before _ after. (K.told after.sink.sink ≡ K.told before.sink.sink)
        × (after.sink.turn ≡ before.sink.turn) × (after.sink.counts ≡ before.sink.counts) };

    ghost permits = { λ s piece. IsRest P.text (K.told s.sink.sink) piece };

    fn hand(&mut self, piece: &[u8]) -> Pushed {
        self.sink.push(piece)
    }

    fn hand_both(&mut self, first: &[u8], second: &[u8]) -> PushedBoth {
        self.sink.push_both(first, second)
    }

    fn hold_for(&mut self, cut: u64) {
        self.sink.hold(cut);
    }
}

/// Runs a session whose answers follow from their number alone into an empty sink in memory with counts in memory. Each
/// answer of which the sink has taken a byte is counted once, while its count is below 2^64 - 1, whatever parts of it
/// the sink takes at a time. It is counted by its status, of which 15 have a count of their own.
pub(crate) fn count_session<'c, S: Source, K: Sink, R: Responder, P: Script<R>>(
    intake: &mut Intake,
    source: &mut S,
    sink: CountingSink<'c, K>,
    responder: &mut R,
) -> CountingSink<'c, K>
    requires fresh { intake.old.given ≡ 0 }
    requires empty { intake.old.unread ≡ [] }
    requires ready { R.ready responder.old }
    requires follows { P.follows responder.old }
    requires first { P.given responder.old ≡ 0 }
    requires answers { (before : R) (request : RequestText) (text : List ℕ) (after : R)
        → P.follows before → P.given before < 65536 → R.answers before request text after
        → (text ≡ P.text (P.given before)) × (P.given after ≡ P.given before + 1) × P.follows after }
    requires refuses { (now : R) (fault : WireFault) (text : List ℕ)
        → P.follows now → R.refuses now fault text → text ≡ P.text (P.given now) }
    requires some { (n : ℕ) → 0 < length (P.text n) }
    requires idle { sink.turn.left ≡ 0 }
    requires tells { K.told sink.sink ≡ Some [] }
    ensures counted { AreCounted P.text (K.told result.sink) sink.entry.counts result.counts }
{
    let mut outlet: ScriptOutlet<'c, K, R, P> = ScriptOutlet {
        sink,
        script: PhantomData,
    };
    let _end = run_permitted(intake, source, &mut outlet, responder);
    let ScriptOutlet { sink, script: _ } = outlet;
    sink
}

/// Answers the requests that come with these replies, one after the other, into an empty sink in memory that counts in
/// memory. Its counts by status are those of the answers of which it has taken a byte, once each, and add up to them
/// where these are fewer than 2^64.
pub fn count_replies<'c, S: Source, K: Sink + Drop>(
    alloc: Global,
    source: &mut S,
    sink: K,
    replies: &[Reply],
) -> Result<CountingSink<'c, K>, AllocError>
    requires some { All (λ reply. 0 < length reply.head.items) replies.now }
    requires tells { K.told sink ≡ Some [] }
    ensures counted { IfOk result (λ counting.
        AddUp (text_at replies.now) (K.told counting.sink) counting.counts) }
{
    let mut intake = Intake::start(alloc)?;
    let counting = CountingSink::plain(alloc, sink)?;
    let mut responder = Listed::of(replies);
    Ok(count_session::<S, K, Listed<'_>, Brand>(&mut intake, source, counting, &mut responder))
}

/// The counts by status, of which there are sixteen, add up to what they were before and the answers that have begun,
/// while that is a number of 64 bits.
pub fn counts_add_up()
    ensures { (text : ℕ → List ℕ) (begun : ℕ) (counts : List ℕ) → length counts ≡ 16 → sum counts + begun < 2 ^ 64
        → sum (raised text begun counts) ≡ sum counts + begun }
{}
