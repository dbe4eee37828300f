//! Answers of the window as bytes.
ghost use Rattle.std.specs.Prelude.{◌≡◌, ◌≤◌, ◌+◌, ◌++◌, codes, decimal, length};
ghost use Rattle.arrayvec.specs.ArrayVec.{array_vec_len};
ghost use Rattle.http_wire.specs.Answers.{close_of};
ghost use Rattle.session_loop.specs.Answered.{answer_bytes};
ghost use Rattle.host_window.specs.Pages.{front_of, line_of, page_text, reply_text, text_of};

use crate::words::Word;
use arrayvec::ArrayVec;
use http_wire::{Answer, Body, append};
use itoa::Buffer;

// Adds a length for which there is room.
fn append_length(text: &mut ArrayVec<u8, 256>, size: usize)
    requires room { array_vec_len text.old ≤ 230 }
    ensures items { text.new.items ≡ text.old.items ++ decimal size }
    ensures len { array_vec_len text.new ≤ array_vec_len text.old + 20 }
{
    append(text, Buffer::new().format(size).as_bytes());
}

// The front of an answer's head, up to the value of its length.
fn front(line: &[u8]) -> ArrayVec<u8, 256>
    requires short { length line.now ≤ 40 }
    ensures front { result.items ≡ front_of line.now }
    ensures len { array_vec_len result ≤ 150 }
{
    let mut head = ArrayVec::new();
    append(&mut head, b"HTTP/1.1 ");
    append(&mut head, line);
    append(
        &mut head,
        b"\r\nContent-Type: text/plain; version=0.0.4; charset=utf-8",
    );
    append(&mut head, b"\r\nContent-Length: ");
    head
}

// The head of an answer.
fn head_of(line: &[u8], size: usize, last: bool) -> ArrayVec<u8, 256>
    requires short { length line.now ≤ 40 }
    ensures { result.items ≡ front_of line.now ++ decimal size ++ close_of last ++ codes "\r\n\r\n" }
{
    let mut head = front(line);
    append_length(&mut head, size);
    if last {
        append(&mut head, b"\r\nConnection: close");
    }
    append(&mut head, b"\r\n\r\n");
    head
}

/// A word as an answer.
pub(crate) fn answer_of(word: Word, last: bool) -> Answer
    ensures { answer_bytes result ≡ reply_text (line_of word) (text_of word) last }
{
    let text = word.text();
    let mut body = ArrayVec::new();
    append(&mut body, text);
    Answer {
        head: head_of(word.line(), text.len(), last),
        body: Body::Small(body),
        after: 0,
    }
}

/// A page as an answer.
pub(crate) fn page_answer(page: Vec<u8>, last: bool) -> Answer
    ensures { answer_bytes result ≡ page_text page.items last }
{
    Answer {
        head: head_of(Word::Well.line(), page.len(), last),
        body: Body::Large(page),
        after: 0,
    }
}
