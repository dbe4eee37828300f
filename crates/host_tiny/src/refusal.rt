// The answers to wire faults.
ghost use Rattle.std.specs.Prelude.{◌≡◌};
ghost use Rattle.session_loop.specs.Answered.{answer_bytes};
ghost use Rattle.host_tiny.specs.Replies.{problem_of_fault, fault_text};

use crate::problem::problem_answer;
use http_wire::{Answer, WireFault};
use osdm_texts::Problem;

fn problem_of_fault(fault: WireFault) -> Problem
    ensures { result ≡ problem_of_fault fault }
{
    match fault {
        WireFault::BadHead => Problem::BadHead,
        WireFault::HeadTooLarge => Problem::HeadTooLarge,
        WireFault::BodyTooLarge => Problem::BodyTooLarge,
        WireFault::Coding => Problem::Coding,
        WireFault::BadLength => Problem::BadLength,
    }
}

/// The answer to what stands in a request's place. It is the last of its connection.
pub fn refusal_of(fault: WireFault) -> Answer
    ensures { answer_bytes result ≡ fault_text fault }
{
    problem_answer(&problem_of_fault(fault), true)
}
