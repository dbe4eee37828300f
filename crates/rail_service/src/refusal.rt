//! Refusals of what stands in a request's place.
ghost use Rattle.std.specs.Prelude.{◌≡◌, true};
ghost use Rattle.session_loop.specs.Answered.{answer_bytes};
ghost use Rattle.catalogue_contents.specs.Contents.{CatalogueView};
ghost use Rattle.osdm_texts.specs.Answers.{problem};
ghost use Rattle.rail_service.specs.Bytes.{reply_bytes};
ghost use Rattle.rail_service.specs.Refusals.{problem_of_wire as problem_of};

use crate::answering::problem_answer;
use http_wire::{Answer, WireFault};
use osdm_texts::Problem;

fn problem_of_wire(fault: WireFault) -> Problem
    ensures { result ≡ problem_of fault }
{
    match fault {
        WireFault::BadHead => Problem::BadHead,
        WireFault::HeadTooLarge => Problem::HeadTooLarge,
        WireFault::BodyTooLarge => Problem::BodyTooLarge,
        WireFault::Coding => Problem::Coding,
        WireFault::BadLength => Problem::BadLength,
    }
}

/// The answer to what stands in a request's place. It is the last of its connection, and takes no memory.
pub fn refusal_of(fault: WireFault) -> Answer
    ensures bytes { (cat : CatalogueView) → answer_bytes result ≡ reply_bytes cat true (problem (problem_of fault)) }
    ensures at_once { result.after ≡ 0 }
{
    problem_answer(&problem_of_wire(fault), true, 0)
}
