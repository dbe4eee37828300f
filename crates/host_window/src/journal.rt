//! A journal whose cuts are counted.

use crate::counters::Counters;
use rail_io::{Journal, JournalOpened};
use std::alloc::Global;
use std::time;

/// Keeps as its journal does. Where there are counts, it counts what is kept, and says when a write has begun.
#[derive(Drop)]
pub struct CountingJournal<'c, J, N> {
    pub journal: J,
    pub counters: Option<&'c Counters>,
    pub time: N,
}

impl<J, N: time::Clock> CountingJournal<'_, J, N> {
    // A write begins.
    fn note_begin(&self) {
        let Some(counters) = self.counters else {
            return;
        };
        if let Ok(since) = self.time.since_1970() {
            counters.note_writing(since.as_secs());
        }
    }

    // It has ended, and that many bytes are kept, of the whole journal or of a piece; or the journal is lost.
    fn note_end(&self, kept: bool, whole: bool, bytes: usize) {
        let Some(counters) = self.counters else {
            return;
        };
        counters.note_writing(0);
        match (kept, whole) {
            (false, _) => counters.note_lost(),
            (true, true) => counters.note_rewrite(bytes),
            (true, false) => counters.note_cut(bytes),
        }
    }
}

impl<J: Journal, N: time::Clock> Journal for CountingJournal<'_, J, N> {
    ghost told = { λ j. J.told j.journal };

    ghost faults = { λ j. J.faults j.journal };

    ghost puts = { λ before text after. J.puts before.journal text after.journal };

    ghost adds = { λ before piece after. J.adds before.journal piece after.journal };

    fn open(&mut self, alloc: Global, name: &str, room: u32) -> JournalOpened {
        self.journal.open(alloc, name, room)
    }

    fn replace(&mut self, text: &[u8]) -> bool {
        self.note_begin();
        let kept = self.journal.replace(text);
        self.note_end(kept, true, text.len());
        kept
    }

    fn append(&mut self, piece: &[u8]) -> bool {
        self.note_begin();
        let kept = self.journal.append(piece);
        self.note_end(kept, false, piece.len());
        kept
    }
}
