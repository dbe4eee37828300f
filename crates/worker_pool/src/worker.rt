// What takes turns on a desk.
ghost use Rattle.std.specs.Prelude.{◌≡◌, ◌↔◌};
ghost use Rattle.claim_rule.specs.Rule.{BooksView, DeskView};
ghost use Rattle.claim_rule.specs.Desks.{IsOf};
ghost use Rattle.claim_rule.specs.Out.{IsTidy};
ghost use Rattle.worker_pool.specs.declared.worker.TurnEnd.TheVariants.{End};
ghost use Rattle.worker_pool.specs.Turns.{KeepsDesk};

use claim_rule::{Books, Desk};

/// What a turn answers.
#[derive(Clone, Copy, PartialEq, Eq)]
pub enum TurnEnd {
    /// The worker wants another turn.
    Again,
    /// The worker has ended.
    End,
}

/// Works on a desk, turn by turn.
pub trait Worker {
    /// Whether the worker may work on these books.
    ghost fits: { Self → BooksView → Type 0 };

    /// Whether it has ended.
    ghost ended: { Self → Type 0 };

    /// What one turn does: the worker and the desk before it, and both after it.
    ghost does: { Self → DeskView → Self → DeskView → Type 0 };

    /// One turn. It answers `End` exactly where the worker has then ended.
    fn turn(&mut self, books: &Books, desk: &mut Desk) -> TurnEnd
        requires fits { fits self.old books.now }
        requires own { IsOf books.now desk.old }
        requires tidy { IsTidy desk.old }
        ensures fits { fits self.new books.now }
        ensures own { IsOf books.now desk.new }
        ensures tidy { IsTidy desk.new }
        ensures keeps { KeepsDesk desk.old desk.new }
        ensures does { does self.old desk.old self.new desk.new }
        ensures end { (result ≡ End) ↔ ended self.new };
}
