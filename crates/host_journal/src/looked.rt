// What a committer saw.
ghost use Rattle.std.specs.Prelude.{◌≡◌, IfOk};
ghost use Rattle.claim_rule.specs.Calls.{AddsStepsBy};
ghost use Rattle.claim_rule.specs.Desks.{IsOf};
ghost use Rattle.claim_rule.specs.Out.{AllLooks, IsTidy};
ghost use Rattle.host_journal.specs.Logs.{WritesRows};

use crate::log::Lines;
use answer_gate::Closed;
use claim_rule::{Books, Desk};
use row_cuts::{push_all_lines, push_marked_lines};
use std::alloc::{AllocError, Global};

/// How many bytes of lines there is room for at first.
const LINES_ROOM: usize = 16_384;

/// The lines of a cut, as they were seen by who had the gate's `Closed` for it. Only a look gives them.
#[derive(Drop)]
pub struct Looked {
    cut: u64,
    lines: Lines,
}

impl Looked {
    /// The lines, without the cut.
    pub fn into_lines(self) -> Lines
        ensures { result ≡ self.lines }
    {
        let Looked { cut: _, lines } = self;
        lines
    }
}

/// The lines of all rows, or of those that are set in some marks, as looks show them while the gate is to be closed. It
/// is to take the marks of all rows meanwhile; or to leave them, where all rows are looked at, so that the next cut has
/// these rows once more.
pub fn look(
    closed: &Closed,
    alloc: Global,
    books: &Books,
    desk: &mut Desk,
    is_whole: bool,
) -> Result<Looked, AllocError>
    requires own { IsOf books.now desk.old }
    ensures own { IsOf books.now desk.new }
    ensures tidy { IsTidy desk.old → IsTidy desk.new }
    ensures looks { AddsStepsBy AllLooks desk.old desk.new }
    ensures lines { IfOk result (λ looked. AddsStepsBy (WritesRows is_whole books.now.layout.rows looked.lines) desk.old
        desk.new) }
    ensures cut { IfOk result (λ looked. looked.cut ≡ closed.now.number) }
{
    let mut text = Vec::with_capacity(alloc, LINES_ROOM)?;
    let count = if is_whole {
        push_all_lines(&mut text, books, desk)?
    } else {
        push_marked_lines(&mut text, books, desk)?
    };
    Ok(Looked {
        cut: closed.number(),
        lines: Lines { text, count },
    })
}
