//! Requests of HTTP/1.1 out of a source, and heads of answers, after the message form of RFC 9112.
//!
//! Any stream of bytes spells one list of requests and one rest (`one_reading`), whatever pieces the
//! source hands out. `Intake::next_request` gives the next request of what it holds and pulls, whole, or
//! says what stands in its place: the end, a cut, one of five faults, or a failed read.
//! All memory of the wire is the intake's, and is taken at its start: no other call is handed an allocator.
//!
//! The profile: heads are read by `httparse` with its default settings, bodies are counted by
//! `Content-Length` alone, and a request is the last of its connection where it is HTTP/1.0, where it
//! says `Connection: close`, or where it is number 65,536.
//!
//! `Intake::start` takes 278,528 bytes, which no clause says. The search for a head's end takes, over all calls, at most
//! a step for each byte (`each_once`); that each byte looked at is a step is seen in the code. Where the bytes held
//! tell what comes next, nothing is read (`at_once`).
#![tactic(auto)]

mod answer;
mod head;
mod intake;
mod request;
mod room;
mod scan;
mod served;

ghost use Rattle.std.specs.Prelude.{◌≡◌, ℕ, List};
ghost use Rattle.http_wire.specs.Requests.{RequestText, Rest, Spells};

pub use answer::{Answer, Body, append, append_number, write_head};
pub use intake::Intake;
pub use request::{Next, Piece, Request, WireFault};
pub use scan::HeadScan;

/// A stream spells one list of requests, and ends in one way: there is no second reading, and none
/// without any.
pub fn one_reading()
    ensures unique { (xs ys : List RequestText) (number : ℕ) (stream : List ℕ) (a b : Rest)
        → Spells number stream xs a → Spells number stream ys b → (xs ≡ ys) × (a ≡ b) }
    ensures some { (number : ℕ) (stream : List ℕ)
        → ((xs : List RequestText) (rest : Rest) → Spells number stream xs rest → ⊥) → ⊥ }
{}
