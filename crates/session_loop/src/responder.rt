// What answers requests.
ghost use Rattle.std.specs.Prelude.{◌≡◌, ℕ, List, length};
ghost use Rattle.http_wire.specs.Pieces.{request_text, ArePiecesWithin};
ghost use Rattle.http_wire.specs.Requests.{RequestText};
ghost use Rattle.http_wire.specs.declared.request.WireFault.{WireFault};
ghost use Rattle.session_loop.specs.Answered.{answer_bytes};

use http_wire::{Answer, Intake, Request, WireFault};

/// Answers the requests of one connection.
pub trait Responder {
    /// What a responder has to be like to be asked. It is so again after each answer.
    ghost ready: { Self → Type 0 };

    /// The responder before, the request, the bytes of its answer, the responder after.
    ghost answers: { Self → RequestText → List ℕ → Self → Type 0 };

    /// The bytes that answer what stands in a request's place.
    ghost refuses: { Self → WireFault → List ℕ → Type 0 };

    /// That an answer waits for the cut of a number: the responder before it, the number, and the responder after it.
    /// Whoever knows nothing of a responder but this trait can show that only of a number that an answer has.
    ghost awaits: { Self → ℕ → Self → Type 0 } = { λ _ _ _. Unit {0} };

    /// Answers the request that the intake gave last. `last` is the request's own mark.
    fn answer(&mut self, intake: &Intake, request: &Request, last: bool) -> Answer
        requires given { ArePiecesWithin (length intake.now.taken) request.now }
        requires last { last ≡ request.now.last }
        requires ready { ready self.old }
        ensures ready { ready self.new }
        ensures answers { answers self.old (request_text intake.now.taken request.now) (answer_bytes result) self.new }
        ensures awaits { awaits self.old result.after self.new };

    /// Answers what stands in a request's place, and stays as it was.
    fn refuse(&mut self, fault: WireFault) -> Answer
        ensures refuses { refuses self.old fault (answer_bytes result) }
        ensures awaits { awaits self.old result.after self.new }
        ensures same { self.new ≡ self.old };
}
