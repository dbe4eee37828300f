// Answers that are problems.
ghost use Rattle.std.specs.Prelude.{◌≡◌, IsTrue};
ghost use Rattle.session_loop.specs.Answered.{answer_bytes};
ghost use Rattle.http_wire.specs.Answers.{is_status};
ghost use Rattle.osdm_parts.specs.Problems.{problem_line};
ghost use Rattle.host_tiny.specs.Replies.{problem_text};

use http_wire::{Answer, Body, write_head};
use osdm_texts::{Problem, small_text};

fn status(problem: &Problem) -> u16
    ensures status { result ≡ (problem_line problem.now).status }
    ensures known { IsTrue (is_status result) }
{
    problem.status()
}

/// The answer of a problem, and whether it is the last of its connection.
pub fn problem_answer(problem: &Problem, last: bool) -> Answer
    ensures { answer_bytes result ≡ problem_text problem.now last }
{
    let body = small_text(problem);
    let head = write_head(status(problem), true, body.len() as u32, last);
    Answer {
        head,
        body: Body::Small(body),
        after: 0,
    }
}
