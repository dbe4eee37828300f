//! The pages of the window.
ghost use Rattle.std.specs.Prelude.{◌≡◌};
ghost use Rattle.session_loop.specs.Answered.{answer_bytes};
ghost use Rattle.host_window.specs.Pages.{IsAsked, Shows};
ghost use Rattle.host_window.specs.declared.pages.Page.TheVariants.{Metrics};

use crate::counters::Counters;
use crate::finds_texts::window_page;
use crate::found::Finds;
use crate::reply::{answer_of, page_answer};
use crate::words::Word;
use http_wire::{Answer, Intake, Request, WireFault};
use session_loop::Responder;
use std::alloc::Global;
use std::sync::Wait;

/// What a request asks for.
#[derive(Clone, Copy, PartialEq, Eq)]
pub(crate) enum Page {
    /// How the host does.
    Healthz,
    /// What is counted of it.
    Metrics,
    /// One of these by another method than GET.
    NotGet,
    /// There is no such page.
    Unknown,
}

/// The pages about a host.
#[derive(Drop)]
pub struct Pages<'c, R> {
    pub(crate) rt: &'c R,
    pub(crate) alloc: Global,
    pub(crate) counters: &'c Counters,
}

// The page of a path, as if by GET.
fn page_of(method: &[u8], path: &[u8]) -> Page
    ensures { IsAsked method.now path.now result }
{
    let is_health = path == b"/healthz".as_slice();
    if !is_health && path != b"/metrics".as_slice() {
        return Page::Unknown;
    }
    if method != b"GET".as_slice() {
        return Page::NotGet;
    }
    if is_health {
        Page::Healthz
    } else {
        Page::Metrics
    }
}

impl<'c, R> Pages<'c, R> {
    /// Of the host that counts so.
    pub fn of(rt: &'c R, alloc: Global, counters: &'c Counters) -> Pages<'c, R>
        ensures rt { result.rt ≡ rt.entry }
        ensures alloc { result.alloc ≡ alloc }
        ensures counters { result.counters ≡ counters.entry }
    {
        Pages {
            rt,
            alloc,
            counters,
        }
    }
}

impl<R: Wait> Pages<'_, R> {
    // The page with what is counted, and with what was found.
    fn counted(&self, finds: &Finds, last: bool) -> Answer
        ensures { Shows Metrics last (answer_bytes result) }
    {
        match self.counters.read(self.alloc) {
            Ok(counts) => match window_page(self.alloc, &counts, finds) {
                Ok(page) => page_answer(page, last),
                Err(_) => answer_of(Word::NoMemory, last),
            },
            Err(_) => answer_of(Word::NoMemory, last),
        }
    }

    // The page with what is counted, and with what is found now.
    fn metrics(&self, last: bool) -> Answer
        ensures { Shows Metrics last (answer_bytes result) }
    {
        let finds = self.counters.findings.read(self.rt);
        self.counted(&finds, last)
    }

    // The page that is asked for.
    fn show(&self, page: Page, last: bool) -> Answer
        ensures { Shows page last (answer_bytes result) }
    {
        match page {
            Page::Healthz => answer_of(Word::of(self.counters.health()), last),
            Page::Metrics => self.metrics(last),
            Page::NotGet => answer_of(Word::NotGet, last),
            Page::Unknown => answer_of(Word::Unknown, last),
        }
    }
}

impl<R: Wait> Responder for Pages<'_, R> {
    ghost use Rattle.std.specs.Prelude.{⊤};
    ghost use Rattle.host_window.specs.Showing.{Refuses, Responds};

    ghost ready = { λ _. ⊤ };

    ghost answers = { λ before request text after. Responds before request text after };

    ghost refuses = { λ pages fault text. Refuses pages fault text };

    fn answer(&mut self, intake: &Intake, request: &Request, last: bool) -> Answer {
        let page = page_of(intake.part(request.method), intake.part(request.path));
        self.show(page, last)
    }

    fn refuse(&mut self, fault: WireFault) -> Answer {
        let _ = fault;
        answer_of(Word::Refused, true)
    }
}
