// The member that has bookings kept.
ghost use Rattle.std.specs.Prelude.{◌≡◌, IfSome};
ghost use Rattle.claim_rule.specs.Calls.{AddsStepsBy};
ghost use Rattle.claim_rule.specs.Desks.{IsOf};
ghost use Rattle.claim_rule.specs.Out.{AllLooks, IsTidy};
ghost use Rattle.host_journal.specs.Logs.{KeepsCut, log_end};

use crate::log::{Kept, Log};
use crate::looked::look;
use crate::watching::Watcher;
use answer_gate::{Closed, Cuts, Taken};
use claim_rule::{Books, Desk};
use rail_io::{Bell, Journal};
use std::alloc::Global;
use std::sync::Wait;
use worker_pool::TurnEnd;

/// Takes cuts. It is to wait until somebody waits for a cut and no command that may change bookings is under way. Then
/// it is to look at the rows that are marked, let commands go on, and have the journal keep the lines of those rows.
/// Whoever waits for the cut is to hear that it is kept.
///
/// Of all this a contract says that the desk looks, and that the lines kept are those of some rows.
#[derive(Drop)]
pub struct Committer<'g, R, J, B> {
    pub rt: &'g R,
    pub cuts: &'g Cuts<Kept>,
    pub alloc: Global,
    pub log: Log<J>,
    /// Is rung at the port once the journal is lost, since a member may wait there for a connection.
    pub bell: B,
    pub port: u16,
}

impl<R: Wait, J: Journal, B: Bell> Committer<'_, R, J, B> {
    /// Looks at the rows that are set in some marks, or at all; opens the gate; and has their lines kept. Gives the cut
    /// that was taken, and a receipt where it is kept. That the marks are those since the cut before, and what becomes
    /// of the gate, no clause says.
    fn take_cut(&mut self, closed: Closed, books: &Books, desk: &mut Desk) -> (Taken, Option<Kept>)
        requires own { IsOf books.now desk.old }
        requires tidy { IsTidy desk.old }
        ensures own { IsOf books.now desk.new }
        ensures tidy { IsTidy desk.new }
        ensures looks { AddsStepsBy AllLooks desk.old desk.new }
        ensures kept { IfSome result.1 (λ _. KeepsCut books.now.layout.rows (J.told self.old.log.journal)
            (J.told self.new.log.journal) self.old.log.head (log_end self.old.log) (log_end self.new.log)
            desk.old desk.new) }
        ensures of { IfSome result.1 (λ kept. kept.number ≡ result.0.number) }
    {
        let is_whole = self.log.is_grown();
        let looked = look(&closed, self.alloc, books, desk, is_whole);
        let taken = self.cuts.taken(self.rt, closed);
        let kept = match looked {
            Ok(looked) => self.log.keep(self.alloc, &taken, looked, is_whole),
            Err(_) => None,
        };
        (taken, kept)
    }
}

impl<R: Wait, J: Journal, B: Bell> Watcher for Committer<'_, R, J, B> {
    fn watch(&mut self, books: &Books, desk: &mut Desk) -> TurnEnd {
        let Some(closed) = self.cuts.next_cut(self.rt) else {
            return TurnEnd::End;
        };
        let (taken, kept) = self.take_cut(closed, books, desk);
        if let Some(kept) = kept {
            self.cuts.keep(self.rt, taken, kept);
            return TurnEnd::Again;
        }
        self.cuts.lose(self.rt, taken);
        self.bell.ring(self.port);
        TurnEnd::End
    }
}
