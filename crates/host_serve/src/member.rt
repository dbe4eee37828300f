// What members do.
use crate::serving::Server;
use crate::shared_listener::Named;
use crate::streams::{LockedStreams, Streams};
use crate::sweeping::Sweeper;
use answer_gate::Gate;
use catalogue_contents::Catalogue;
use claim_rule::{Books, Desk};
use host_journal::{Lookout, Watcher};
use host_window::Findings;
use host_words::Serving;
use rail_io::{Clock, Ticker};
use rail_service::Listener;
use std::alloc::Global;
use std::sync::Wait;
use std::sync::ledger::Share;
use worker_pool::{Gives, TurnEnd, Worker};

/// What all members share: memory, the catalogue, the numbers of the words, the gate, and what is told of the books.
#[derive(Clone, Copy)]
pub struct Common<'s> {
    pub alloc: Global,
    pub cat: &'s Catalogue,
    pub said: Serving,
    /// What commands go through that change bookings, where a journal is kept.
    pub gate: Option<&'s Gate>,
    /// What is told of the books, where somebody asks.
    pub findings: Option<&'s Findings>,
}

/// A member's post: it serves, it sweeps, or it watches.
#[derive(Drop)]
pub enum Post<'s, S, T, C, W> {
    Serving(Server<'s, S, C>),
    Sweeping(Sweeper<'s, T, C>),
    Watching(Lookout<W>),
}

impl<R, L: Listener + Drop, N: Named, T: Drop, C, W: Drop> Post<
    '_,
    LockedStreams<'_, R, L, N>,
    T,
    C,
    W,
> {
    ghost use Rattle.std.specs.Prelude.{◌≡◌, ◌+◌};
    ghost use Rattle.host_serve.specs.Turns.{clock_of, handed_of, part_of};

    /// The clock of the post, at its end, if it has one. What it was handed out is counted in the share from then on.
    pub fn into_clock(self, all: &mut Share<N>) -> Option<C>
        ensures clock { result ≡ clock_of self.entry }
        ensures parts { all.new.parts ≡ all.old.parts + part_of self.entry }
        ensures amount { all.new.amount ≡ all.old.amount + handed_of self.entry (λ s. s.share.amount) }
    {
        match self {
            Post::Serving(server) => {
                let Server { streams, clock, .. } = server;
                let LockedStreams { share, .. } = streams;
                all.merge(share);
                Some(clock)
            }
            Post::Sweeping(sweeper) => Some(sweeper.clock),
            Post::Watching(_) => None,
        }
    }
}

impl<
    R: Wait,
    L: Listener + Drop,
    N: Named,
    T: Ticker + Drop,
    C: Clock + Drop,
    W: Watcher + Drop,
> Gives<N> for Post<'_, LockedStreams<'_, R, L, N>, T, C, W> {
    ghost use Rattle.host_serve.specs.Turns.{handed_of, part_of};

    ghost parts = { λ w. part_of w };

    ghost amount = { λ w. handed_of w (λ s. s.share.amount) };

    fn give(self, all: &mut Share<N>) {
        let _clock = self.into_clock(all);
    }
}

impl<S: Streams, T: Ticker, C: Clock, W: Watcher> Worker for Post<'_, S, T, C, W> {
    ghost use Rattle.host_serve.specs.Turns.{FitsBooks, HasEnded, DoesTurn};

    ghost fits = { λ w books. FitsBooks w books };

    ghost ended = { λ w. HasEnded w };

    ghost does = { λ before old after new. DoesTurn (record {
      told = C.told;
      handed = S.handed;
      hands = S.hands;
      lets_go = S.lets_go;
      ticked = T.ticked;
    }) before old after new };

    fn turn(&mut self, books: &Books, desk: &mut Desk) -> TurnEnd {
        match self {
            Post::Serving(server) => server.take_turn(books, desk),
            Post::Sweeping(sweeper) => sweeper.take_turn(books, desk),
            Post::Watching(lookout) => lookout.take_turn(books, desk),
        }
    }
}
