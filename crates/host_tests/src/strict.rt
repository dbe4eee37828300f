// A session into an outlet that may be handed the next of the defined answers, and nothing else.
ghost use Rattle.std.specs.Prelude.{◌≡◌, ◌≤◌, ◌++◌, ℕ, List, true, false};
ghost use Rattle.http_wire.specs.Answers.{head_text};
ghost use Rattle.http_wire.specs.declared.request.WireFault.{WireFault};
ghost use Rattle.http_wire.specs.Requests.{RequestText};
ghost use Rattle.host_tests.specs.Strict.{IsNextOf};

use arrayvec::ArrayVec;
use http_wire::{Answer, Body, Intake, Request, WireFault, write_head};
use rail_io::{BytesSource, Pushed, PushedBoth};
use session_loop::{ConnEnd, Outlet, Responder, run_permitted};
use std::alloc::{AllocError, Global};
use std::marker::{Brand, PhantomData};
use std::test::Fail;

/// What may come after what was taken, while so late a cut is to be kept first.
trait Wanted {
    ghost next: { List ℕ → ℕ → List ℕ → Type 0 };
}

impl Wanted for Brand {
    ghost next = { λ _ _ _. ⊥ };
}

/// Keeps what it takes and the latest cut that it was told of, and tells neither. It may be handed only what is wanted
/// next.
#[derive(Drop)]
struct StrictOutlet<N> {
    bytes: Vec<u8>,
    cut: u64,
    faults: u64,
    wanted: PhantomData<N>,
}

impl<N: Wanted> Outlet for StrictOutlet<N> {
    ghost use Rattle.std.specs.Prelude.{None};

    ghost told = { λ _. None };

    ghost faults = { λ s. s.faults };

    ghost takes = { λ before bytes after. (after.bytes.items ≡ before.bytes.items ++ bytes)
        × (after.cut ≡ before.cut) };

    ghost held = { λ before cut after. (after.bytes.items ≡ before.bytes.items) × (before.cut ≤ after.cut)
        × (cut ≤ after.cut) };

    ghost permits = { λ s piece. N.next s.bytes.items s.cut piece };

    fn hand(&mut self, piece: &[u8]) -> Pushed {
        if self.bytes.extend_from_slice(piece).is_ok() {
            return Pushed::Took(piece.len());
        }
        self.faults = self.faults.saturating_add(1);
        Pushed::Failed
    }

    fn hand_both(&mut self, first: &[u8], second: &[u8]) -> PushedBoth {
        if self.bytes.extend_from_slice(first).is_err() {
            self.faults = self.faults.saturating_add(1);
            return PushedBoth::Failed(0);
        }
        match self.bytes.extend_from_slice(second) {
            Ok(()) => PushedBoth::Took(first.len() + second.len()),
            Err(_) => PushedBoth::Took(first.len()),
        }
    }

    fn hold_for(&mut self, cut: u64) {
        if self.cut < cut {
            self.cut = cut;
        }
    }
}

// The cut that each answer waits for.
const CUT: u64 = 7;

/// Answers each request with a head alone, which waits for a cut.
#[derive(Drop)]
struct Heads;

impl Responder for Heads {
    ghost ready = { λ _. Unit {0} };

    ghost answers = { λ _ request text _. text ≡ head_text 200 false 0 request.last };

    ghost refuses = { λ _ _ text. text ≡ head_text 400 true 0 true };

    ghost awaits = { λ _ cut _. cut ≡ 7 };

    fn answer(&mut self, _intake: &Intake, _request: &Request, last: bool) -> Answer {
        Answer {
            head: write_head(200, false, 0, last),
            body: Body::Small(ArrayVec::new()),
            after: CUT,
        }
    }

    fn refuse(&mut self, _fault: WireFault) -> Answer {
        Answer {
            head: write_head(400, true, 0, true),
            body: Body::Small(ArrayVec::new()),
            after: CUT,
        }
    }
}

/// How a session ended, and what its outlet took.
#[derive(Drop)]
struct Answered {
    end: ConnEnd,
    bytes: Vec<u8>,
}

/// Answers a stream into an outlet that wants just the next of its answers.
fn answer_strictly<N: Wanted>(alloc: Global, stream: Vec<u8>) -> Result<Answered, AllocError>
    requires wanted { (before : Heads) (taken : List ℕ) (cut : ℕ) (piece : List ℕ)
        → IsNextOf (λ (_ : Heads) (request : RequestText) text (_ : Heads). text ≡ head_text 200 false 0 request.last)
        (λ (_ : Heads) (_ : WireFault) text. text ≡ head_text 400 true 0 true) before stream.items taken piece
        → 7 ≤ cut → N.next taken cut piece }
{
    let mut intake = Intake::start(alloc)?;
    let mut source = BytesSource::new(stream, Vec::new(alloc));
    let mut outlet = StrictOutlet::<N> {
        bytes: Vec::new(alloc),
        cut: 0,
        faults: 0,
        wanted: PhantomData,
    };
    let end = run_permitted(&mut intake, &mut source, &mut outlet, &mut Heads);
    Ok(Answered {
        end,
        bytes: outlet.bytes,
    })
}

const TWO: &str =
    "GET /one HTTP/1.1\r\n\r\nGET /two HTTP/1.1\r\nConnection: close\r\n\r\nGET /three HTTP/1.1\r\n\r\n";

const HEADS: &str =
    "HTTP/1.1 200 OK\r\nContent-Type: application/json\r\nContent-Length: 0\r\n\r\nHTTP/1.1 200 OK\r\nContent-Type: application/json\r\nContent-Length: 0\r\nConnection: close\r\n\r\n";

#[test]
fn a_strict_outlet_gets_all_answers(rt: HostRuntime) -> Result<(), Fail> {
    let stream = TWO.as_bytes().to_vec(rt.alloc())?;
    let answered = answer_strictly::<Brand>(rt.alloc(), stream)?;
    assert!(rt; answered.end == ConnEnd::Done);
    assert!(rt; answered.bytes.as_slice() == HEADS.as_bytes());
    Ok(())
}
