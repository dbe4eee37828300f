// The member that serves.
ghost use Rattle.std.specs.Prelude.{◌≡◌, ◌↔◌, true};
ghost use Rattle.claim_rule.specs.Desks.{IsOf};
ghost use Rattle.claim_rule.specs.Out.{IsTidy};
ghost use Rattle.worker_pool.specs.Turns.{KeepsDesk};
ghost use Rattle.worker_pool.specs.declared.worker.TurnEnd.TheVariants.{End};
ghost use Rattle.host_serve.specs.Turns.{Counts, HasCatalogue, Passes, ServesTurn};

use crate::member::Common;
use crate::stream::serve_stream;
use crate::streams::Streams;
use claim_rule::{Books, Desk};
use rail_io::Clock;
use worker_pool::TurnEnd;

/// Serves the streams that it is handed out, one a turn, at its clock's moments.
#[derive(Drop)]
pub struct Server<'s, S, C> {
    pub streams: S,
    pub common: Common<'s>,
    pub clock: C,
    /// Whether no more streams were handed out.
    pub ended: bool,
}

impl<S: Streams, C: Clock> Server<'_, S, C> {
    /// Serves the stream that it is handed next to its connection's end, and lets it go as it is then; or ends, where
    /// there is none, and all may see it.
    pub fn take_turn(&mut self, books: &Books, desk: &mut Desk) -> TurnEnd
        requires has { HasCatalogue books.now self.old.common.cat.now }
        requires own { IsOf books.now desk.old }
        requires tidy { IsTidy desk.old }
        ensures own { IsOf books.now desk.new }
        ensures tidy { IsTidy desk.new }
        ensures keeps { KeepsDesk desk.old desk.new }
        ensures cat { self.new.common.cat.now ≡ self.old.common.cat.now }
        ensures turn { ServesTurn (Passes S.hands S.lets_go self.old.streams self.new.streams)
            self.old.common.cat.now (record { desk = desk.old; clock = C.told self.old.clock })
            (record { desk = desk.new; clock = C.told self.new.clock }) self.new.ended }
        ensures counts { Counts self.new.ended (S.handed self.old.streams) (S.handed self.new.streams) }
        ensures tells { self.new.ended ≡ true → S.tells self.new.streams }
        ensures end { (result ≡ End) ↔ (self.new.ended ≡ true) }
    {
        let Some(waiting) = self.streams.next_stream() else {
            self.ended = true;
            return TurnEnd::End;
        };
        let finished = serve_stream(self.common, books, desk, waiting, &mut self.clock);
        self.streams.let_go(finished);
        self.ended = false;
        TurnEnd::Again
    }
}
