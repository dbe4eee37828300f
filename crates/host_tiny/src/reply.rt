// Replies and their answers.
ghost use Rattle.std.specs.Prelude.{◌≡◌};
ghost use Rattle.session_loop.specs.Answered.{answer_bytes};
ghost use Rattle.host_tiny.specs.Replies.{field_of, reserved_body, reserved_text, answer_text};

use crate::problem::problem_answer;
use crate::wish::FieldName;
use arrayvec::ArrayVec;
use http_wire::{Answer, Body, append, append_number, write_head};
use leg_masks::Span;
use osdm_texts::{self, Problem};

/// What a request is answered.
#[derive(Clone, Copy)]
pub enum Reply {
    /// 201: the place is reserved on the legs of the span.
    Reserved(u16, Span),
    /// 501: another path or method.
    NotBuilt,
    /// 400: the body isn't JSON.
    NotJson,
    /// 400: the first member at fault.
    BadField(FieldName),
    /// 507: 1,024 reservations are held.
    RowsFull,
    /// 409: no place is free on the legs.
    NoPlace,
    /// 500: there was no memory for the body's JSON. Nothing is reserved.
    NoMemory,
}

fn reserved_body(place: u16, span: Span) -> ArrayVec<u8, 256>
    ensures { result.items ≡ reserved_body place span }
{
    let mut body = ArrayVec::new();
    append(&mut body, b"{\"from\":");
    append_number(&mut body, u32::from(span.from()));
    append(&mut body, b",\"place\":");
    append_number(&mut body, u32::from(place));
    append(&mut body, b",\"to\":");
    append_number(&mut body, u32::from(span.to()));
    append(&mut body, b"}");
    body
}

fn reserved_answer(place: u16, span: Span, last: bool) -> Answer
    ensures { answer_bytes result ≡ reserved_text place span last }
{
    let body = reserved_body(place, span);
    let head = write_head(201, false, body.len() as u32, last);
    Answer {
        head,
        body: Body::Small(body),
        after: 0,
    }
}

fn field_of(name: FieldName) -> osdm_texts::FieldName
    ensures { result ≡ field_of name }
{
    match name {
        FieldName::From => osdm_texts::FieldName::From,
        FieldName::To => osdm_texts::FieldName::To,
    }
}

/// The answer of a reply.
pub fn answer_of(reply: &Reply, last: bool) -> Answer
    ensures { answer_bytes result ≡ answer_text reply.now last }
{
    match reply {
        Reply::Reserved(place, span) => reserved_answer(*place, *span, last),
        Reply::NotBuilt => problem_answer(&Problem::NotBuilt, last),
        Reply::NotJson => problem_answer(&Problem::NotJson, last),
        Reply::BadField(name) => {
            let name = field_of(*name);
            problem_answer(&Problem::BadField { name }, last)
        }
        Reply::RowsFull => problem_answer(&Problem::RowsFull, last),
        Reply::NoPlace => problem_answer(&Problem::NoPlace, last),
        Reply::NoMemory => problem_answer(&Problem::NoMemory, last),
    }
}
