//! Answers of HTTP/1.1 (RFC 9112), by what was said of a request.
ghost use Rattle.std.specs.Prelude.{◌≡◌, ◌++◌, IsTrue, false};
ghost use Rattle.serde_json.specs.Written.{compact_text};
ghost use Rattle.http_wire.specs.Answers.{is_status, head_text};
ghost use Rattle.session_loop.specs.Answered.{answer_bytes};
ghost use Rattle.osdm_texts.specs.Answers.{refused, told_of};
ghost use Rattle.osdm_texts.specs.Sweeps.{swept_tree};
ghost use Rattle.rail_service.specs.Bytes.{told_bytes};

use booking_rows::Swept;
use http_wire::{Answer, Body, write_head};
use osdm_texts::{Problem, Text, Written, small_text, swept_text};

/// The answer that tells what was said, and that may leave after the cut of this number. No memory is taken.
#[inline(always)]
pub(crate) fn answer_of(said: Result<Written, Problem>, last: bool, after: u64) -> Answer
    ensures bytes { answer_bytes result ≡ told_bytes last (told_of said) }
    ensures after { result.after ≡ after }
{
    let Written {
        success,
        length,
        text,
    } = match said {
        Ok(written) => written,
        Err(problem) => return problem_answer(&problem, last, after),
    };
    let status = success.status();
    let text = match text {
        Text::Large(text) => text,
        Text::Counts(swept) => return counts_answer(status, length, swept, last, after),
    };
    Answer {
        head: write_head(status, false, length, last),
        body: Body::Large(text),
        after,
    }
}

/// The answer to a sweep. No memory is taken.
#[inline(always)]
fn counts_answer(status: u16, length: u32, swept: Swept, last: bool, after: u64) -> Answer
    requires known { IsTrue (is_status status) }
    ensures bytes { answer_bytes result ≡ head_text status false length last ++ compact_text (swept_tree swept) }
    ensures after { result.after ≡ after }
{
    small_counts(status, length, swept, last, after)
}

// It stands apart, and its callers are inlined, so that room for its answer is cleared only where it is made.
#[cold]
#[inline(never)]
fn small_counts(status: u16, length: u32, swept: Swept, last: bool, after: u64) -> Answer
    requires known { IsTrue (is_status status) }
    ensures bytes { answer_bytes result ≡ head_text status false length last ++ compact_text (swept_tree swept) }
    ensures after { result.after ≡ after }
{
    Answer {
        head: write_head(status, false, length, last),
        body: Body::Small(swept_text(swept)),
        after,
    }
}

/// The answer that refuses a request, and that may leave after the cut of this number. No memory is taken.
#[inline(always)]
pub(crate) fn problem_answer(problem: &Problem, last: bool, after: u64) -> Answer
    ensures bytes { answer_bytes result ≡ told_bytes last (refused problem.now) }
    ensures after { result.after ≡ after }
{
    small_problem(problem, last, after)
}

// Likewise.
#[cold]
#[inline(never)]
fn small_problem(problem: &Problem, last: bool, after: u64) -> Answer
    ensures bytes { answer_bytes result ≡ told_bytes last (refused problem.now) }
    ensures after { result.after ≡ after }
{
    let text = small_text(problem);
    let head = write_head(problem.status(), true, text.len() as u32, last);
    Answer {
        head,
        body: Body::Small(text),
        after,
    }
}
