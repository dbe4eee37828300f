ghost use Rattle.std.specs.Prelude.{◌≡◌, ◌≤◌, ◌+◌, ◌++◌, Some, length};
ghost use Rattle.arrayvec.specs.ArrayVec.{array_vec_len};
ghost use Rattle.serde_json.specs.Written.{compact_text};
ghost use Rattle.rail_time.specs.Moments.{last_second};
ghost use Rattle.osdm_parts.specs.Problems.{problem_line, problem_tree, two_moments};
ghost use Rattle.osdm_parts.specs.Times.{time_text};
ghost use Rattle.osdm_parts.specs.SmallTexts.{detail_text, AreMoments};

use crate::pieces::{push, push_number};
use crate::problem::{Problem, phase_text};
use arrayvec::ArrayVec;
use rail_time::{Moment, write_moment};

/// The JSON text of a problem (RFC 9457). A `WrongState` shows a phase that is neither free nor in the making; of those
/// two the detail is empty. No memory is taken.
pub fn small_text(problem: &Problem) -> ArrayVec<u8, 256>
    ensures { result.items ≡ compact_text (problem_tree problem.now) }
{
    let mut text = ArrayVec::new();
    push(&mut text, b"{\"code\":\"");
    push(&mut text, problem.code().as_bytes());
    push(&mut text, b"\"");
    push_detail(&mut text, problem);
    push(&mut text, b",\"status\":");
    push_number(&mut text, problem.status());
    push(&mut text, b",\"title\":\"");
    push(&mut text, problem.title().as_bytes());
    push(&mut text, b"\"}");
    text
}

// The member `detail`, where the problem has one.
fn push_detail(text: &mut ArrayVec<u8, 256>, problem: &Problem)
    requires room { array_vec_len text.old + 60 ≤ 256 }
    ensures items { text.new.items ≡ text.old.items ++ detail_text (problem_line problem.now).detail }
    ensures len { array_vec_len text.new ≤ array_vec_len text.old + 60 }
    ensures moments { AreMoments problem.now }
{
    match problem {
        Problem::BadField { name } | Problem::UnknownStation { name } => {
            push_text_detail(text, name.text())
        }
        Problem::WrongState { shown } => push_text_detail(text, phase_text(*shown)),
        Problem::OfferTooOld { made, now } => push_moments_detail(text, *made, *now),
        Problem::TooLate { limit, now } => push_moments_detail(text, *limit, *now),
        _ => {}
    }
}

fn push_text_detail(text: &mut ArrayVec<u8, 256>, detail: &str)
    requires room { array_vec_len text.old + 60 ≤ 256 }
    requires short { length detail.now ≤ 15 }
    ensures items { text.new.items ≡ text.old.items ++ detail_text (Some detail.now) }
    ensures len { array_vec_len text.new ≤ array_vec_len text.old + 60 }
{
    push(text, b",\"detail\":\"");
    push(text, detail.as_bytes());
    push(text, b"\"");
}

fn push_moments_detail(text: &mut ArrayVec<u8, 256>, first: Moment, second: Moment)
    requires room { array_vec_len text.old + 60 ≤ 256 }
    ensures items { text.new.items ≡ text.old.items ++ detail_text (Some (two_moments first second)) }
    ensures len { array_vec_len text.new ≤ array_vec_len text.old + 60 }
    ensures first { first ≤ last_second }
    ensures second { second ≤ last_second }
{
    push(text, b",\"detail\":\"");
    push_moment(text, first);
    push(text, b" ");
    push_moment(text, second);
    push(text, b"\"");
}

#[tactic(auto, unfolding(crate::specs::Times::time_text))]
fn push_moment(text: &mut ArrayVec<u8, 256>, m: Moment)
    requires room { array_vec_len text.old + 20 ≤ 256 }
    ensures items { text.new.items ≡ text.old.items ++ time_text m }
    ensures len { array_vec_len text.new ≡ array_vec_len text.old + 20 }
    ensures in_years { m ≤ last_second }
{
    push(text, write_moment(m).as_slice());
}
