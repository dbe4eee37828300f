//! The service as it answers the requests of one connection.
use crate::answering::{answer_of, problem_answer};
use crate::asking::{admit, asked, first_after, hear_refused, retailer_of};
use crate::performing::say_begun;
use crate::reach::reach_of;
use crate::refusal::refusal_of;
use crate::resource::Resource;
use catalogue_contents::Catalogue;
use claim_rule::{Books, Desk};
use http_wire::{Answer, Intake, Request, WireFault};
use matchit::Router;
use osdm_json::BodyRoom;
use rail_ids::RetailerNo;
use rail_io::Clock;
use session_loop::Responder;
use shop::{Asker, Shop};
use std::alloc::Global;

/// Answers the requests of one connection at a desk, at the clock's moments.
#[derive(Drop)]
pub struct Service<'s, 'd, 'k, C> {
    pub alloc: Global,
    pub cat: &'s Catalogue,
    pub books: &'s Books,
    pub router: &'s Router<Resource>,
    pub desk: &'d mut Desk,
    pub clock: &'k mut C,
    /// Memory for the reading of bodies, kept from request to request.
    pub room: &'d mut BodyRoom,
    /// The retailer of the connection's first known key.
    pub first: Option<RetailerNo>,
}

impl<C: Clock> Responder for Service<'_, '_, '_, C> {
    ghost use Rattle.rail_service.specs.Readiness.{IsReady};
    ghost use Rattle.rail_service.specs.Responding.{Awaits, Responds, Declines};

    ghost ready = { λ s. IsReady s.cat.now s.books.now s.router.now s.desk.now };

    ghost answers = { λ before request text after. Responds C.told before request text after };

    ghost refuses = { λ service fault text. Declines service fault text };

    ghost awaits = { λ before cut after. Awaits C.begun C.ends before cut after };

    // Inlined, since an answer is large to hand on.
    #[inline(always)]
    fn answer(&mut self, intake: &Intake, request: &Request, last: bool) -> Answer {
        let now = self.clock.now();
        let retailer = retailer_of(self.cat, intake, request);
        let admitted = admit(self.first, retailer);
        self.first = first_after(self.first, retailer);
        let retailer = match admitted {
            Ok(retailer) => retailer,
            Err(problem) => {
                hear_refused(self.clock, self.router, intake, request);
                return problem_answer(&problem, last, 0);
            }
        };
        let asking = asked(
            self.clock,
            self.room,
            self.cat,
            self.router,
            intake,
            request,
        );
        let command = match asking {
            Ok(command) => command,
            Err(problem) => return problem_answer(&problem, last, 0),
        };
        let shop = Shop {
            alloc: self.alloc,
            cat: self.cat,
            books: self.books,
        };
        let asker = Asker {
            retailer,
            moment: now,
        };
        self.clock.begin(reach_of(&command));
        let said = say_begun(&*self.clock, &shop, self.desk, asker, &command);
        answer_of(said, last, self.clock.end())
    }

    fn refuse(&mut self, fault: WireFault) -> Answer {
        refusal_of(fault)
    }
}
