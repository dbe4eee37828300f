// The member that watches.
ghost use Rattle.std.specs.Prelude.{◌≡◌, ◌↔◌, true};
ghost use Rattle.claim_rule.specs.Calls.{AddsStepsBy};
ghost use Rattle.claim_rule.specs.Desks.{IsOf};
ghost use Rattle.claim_rule.specs.Out.{AllLooks, IsTidy};
ghost use Rattle.worker_pool.specs.Turns.{KeepsDesk};
ghost use Rattle.worker_pool.specs.declared.worker.TurnEnd.TheVariants.{End};

use claim_rule::{Books, Desk};
use worker_pool::TurnEnd;

/// Looks at books while others serve them.
pub trait Watcher {
    /// Looks once, for which it may wait, and answers whether it wants to look again. The desk makes looks and no other
    /// step.
    fn watch(&mut self, books: &Books, desk: &mut Desk) -> TurnEnd
        requires own { IsOf books.now desk.old }
        requires tidy { IsTidy desk.old }
        ensures own { IsOf books.now desk.new }
        ensures tidy { IsTidy desk.new }
        ensures looks { AddsStepsBy AllLooks desk.old desk.new };
}

/// A watcher at a post, until it ends.
#[derive(Drop)]
pub struct Lookout<W> {
    pub watcher: W,
    /// Whether it has ended.
    pub ended: bool,
}

impl<W: Watcher> Lookout<W> {
    /// Looks once, or ends.
    pub fn take_turn(&mut self, books: &Books, desk: &mut Desk) -> TurnEnd
        requires own { IsOf books.now desk.old }
        requires tidy { IsTidy desk.old }
        ensures own { IsOf books.now desk.new }
        ensures tidy { IsTidy desk.new }
        ensures keeps { KeepsDesk desk.old desk.new }
        ensures turn { AddsStepsBy AllLooks desk.old desk.new }
        ensures end { (result ≡ End) ↔ (self.new.ended ≡ true) }
    {
        let end = self.watcher.watch(books, desk);
        self.ended = end == TurnEnd::End;
        end
    }
}

/// One of two kinds of watchers.
#[derive(Drop)]
pub enum Either<A, B> {
    One(A),
    Other(B),
}

impl<A: Watcher, B: Watcher> Watcher for Either<A, B> {
    fn watch(&mut self, books: &Books, desk: &mut Desk) -> TurnEnd {
        match self {
            Either::One(watcher) => watcher.watch(books, desk),
            Either::Other(watcher) => watcher.watch(books, desk),
        }
    }
}
