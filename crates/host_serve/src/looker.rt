// The member that looks for whoever asks.
ghost use Rattle.std.specs.Prelude.{◌≡◌, ◌≤◌, length};
ghost use Rattle.claim_rule.specs.Calls.{AddsStepsBy};
ghost use Rattle.claim_rule.specs.Desks.{IsOf};
ghost use Rattle.claim_rule.specs.Out.{AllLooks, IsTidy};
ghost use Rattle.host_serve.specs.Serve.{some_count};

use catalogue_contents::Catalogue;
use claim_rule::{Books, Desk};
use host_journal::Watcher;
use host_window::{Findings, Found};
use row_cuts::{SoldCount, count_rows, count_sold};
use std::sync::Wait;
use worker_pool::TurnEnd;

/// Waits until somebody asks what is in the books, looks at all rows and all places of the catalogue, and answers. Of
/// that a clause says only that its desk looks.
#[derive(Drop)]
pub struct Looker<'f, R> {
    rt: &'f R,
    findings: &'f Findings,
    cat: &'f Catalogue,
}

impl<'f, R> Looker<'f, R> {
    /// One for whoever asks by the findings, where there are any.
    pub fn of(rt: &'f R, cat: &'f Catalogue, findings: Option<&'f Findings>) -> Option<Self>
        ensures { some_count result ≡ some_count findings.entry }
    {
        let findings = findings?;
        Some(Looker { rt, findings, cat })
    }
}

/// How many places of each class are sold, none where the books lack these places. A clause says only that the desk
/// looks.
fn sold_in(cat: &Catalogue, books: &Books, desk: &mut Desk) -> SoldCount
    requires own { IsOf books.now desk.old }
    requires tidy { IsTidy desk.old }
    ensures own { IsOf books.now desk.new }
    ensures tidy { IsTidy desk.new }
    ensures looks { AddsStepsBy AllLooks desk.old desk.new }
{
    let places = cat.places().all();
    let within = places.len().min(books.places() as usize);
    count_sold(places.split_at(within).0, books, desk)
}

impl<R: Wait> Watcher for Looker<'_, R> {
    fn watch(&mut self, books: &Books, desk: &mut Desk) -> TurnEnd {
        if !self.findings.next_call(self.rt) {
            return TurnEnd::End;
        }
        let rows = count_rows(books, desk);
        let sold = sold_in(self.cat, books, desk);
        self.findings.answer(self.rt, Found { rows, sold });
        TurnEnd::Again
    }
}

/// Nobody looks any more.
pub(crate) fn end<R: Wait>(findings: Option<&Findings>, rt: &R) {
    if let Some(findings) = findings {
        findings.end(rt);
    }
}
