// Answers that are known before.
ghost use Rattle.std.specs.Prelude.{◌≡◌, ◌≤◌, ◌++◌, length};
ghost use Rattle.session_loop.specs.Answered.{answer_bytes};
ghost use Rattle.host_window.specs.Listed.{text_at};

use arrayvec::ArrayVec;
use http_wire::{Answer, Body, Intake, Request, WireFault, append};
use session_loop::Responder;

/// What stands in the place of a reply once all were given.
const NO_MORE: &[u8] = b"HTTP/1.1 503 Service Unavailable\r\nContent-Length: 0\r\n\r\n";

/// The bytes of an answer: its head, and its body.
#[derive(Drop)]
pub struct Reply {
    pub head: ArrayVec<u8, 256>,
    pub body: ArrayVec<u8, 256>,
}

/// Answers with these replies, one after the other, whatever is asked.
#[derive(Clone, Copy)]
pub(crate) struct Listed<'t> {
    replies: &'t [Reply],
    given: usize,
}

// The same bytes.
fn copied(bytes: &[u8]) -> ArrayVec<u8, 256>
    requires room { length bytes.now ≤ 256 }
    ensures { result.items ≡ bytes.now }
{
    let mut copy = ArrayVec::new();
    append(&mut copy, bytes);
    copy
}

// An answer of these bytes.
fn answer_with(head: &[u8], body: &[u8]) -> Answer
    requires head { length head.now ≤ 256 }
    requires body { length body.now ≤ 256 }
    ensures { answer_bytes result ≡ head.now ++ body.now }
{
    Answer {
        head: copied(head),
        body: Body::Small(copied(body)),
        after: 0,
    }
}

impl<'t> Listed<'t> {
    /// Of which none was given.
    pub(crate) fn of(replies: &'t [Reply]) -> Listed<'t>
        ensures replies { result.replies ≡ replies.entry }
        ensures first { result.given ≡ 0 }
    {
        Listed { replies, given: 0 }
    }

    // The next of them.
    fn next(&self) -> Answer
        ensures { answer_bytes result ≡ text_at self.now.replies.now self.now.given }
    {
        match self.replies.get(self.given) {
            Some(reply) => answer_with(reply.head.as_slice(), reply.body.as_slice()),
            None => answer_with(NO_MORE, b""),
        }
    }
}

impl Responder for Listed<'_> {
    ghost use Rattle.std.specs.Prelude.{⊤};
    ghost use Rattle.host_window.specs.Listed.{Gives, Stands};

    ghost ready = { λ _. ⊤ };

    ghost answers = { λ before request text after. Gives before text after };

    ghost refuses = { λ now fault text. Stands now text };

    fn answer(&mut self, intake: &Intake, request: &Request, last: bool) -> Answer {
        let _ = intake;
        let _ = request;
        let _ = last;
        let answer = self.next();
        self.given = self.given.saturating_add(1);
        answer
    }

    fn refuse(&mut self, fault: WireFault) -> Answer {
        let _ = fault;
        self.next()
    }
}
