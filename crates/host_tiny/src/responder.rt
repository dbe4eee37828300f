// `tiny` as a responder.
ghost use Rattle.std.specs.Prelude.{◌≡◌, ◌<◌, ◌≤◌, [], IfOk};
ghost use Rattle.claim_rule.specs.Rule.{most_place_legs};

use crate::refusal::refusal_of;
use crate::reply::answer_of;
use crate::run::Run;
use crate::tiny::reply_to;
use http_wire::{Answer, Intake, Request, WireFault};
use session_loop::Responder;
use std::alloc::{AllocError, Global};

/// The run with its reservations.
#[derive(Drop)]
pub struct Tiny {
    pub run: Run,
    alloc: Global,
}

impl Tiny {
    /// Takes the memory for all reservations. Nothing is reserved yet.
    pub fn start(alloc: Global, legs: u8, places: u16) -> Result<Self, AllocError>
        requires some { 0 < legs }
        requires few { legs ≤ most_place_legs }
        requires places { 0 < places }
        requires most { places ≤ 1200 }
        ensures { IfOk result (λ tiny. tiny.run ≡ record { legs = legs; places = places; held = [] }) }
    {
        let run = Run::start(alloc, legs, places)?;
        Ok(Tiny { run, alloc })
    }
}

impl Responder for Tiny {
    ghost use Rattle.host_tiny.specs.Responding.{Responds, Declines};

    ghost ready = { λ _. Unit {0} };

    ghost answers = { λ before request text after. Responds before request text after };

    ghost refuses = { λ tiny fault text. Declines tiny fault text };

    fn answer(&mut self, intake: &Intake, request: &Request, last: bool) -> Answer {
        let method = intake.part(request.method);
        let path = intake.part(request.path);
        let body = intake.part(request.body);
        let reply = reply_to(self.alloc, &mut self.run, method, path, body);
        answer_of(&reply, last)
    }

    fn refuse(&mut self, fault: WireFault) -> Answer {
        refusal_of(fault)
    }
}
