//! A source whose bytes are counted.
ghost use Rattle.std.specs.Prelude.{◌≡◌};

use crate::counters::StreamCounts;
use crate::labels::Cause;
use rail_io::{Pulled, Source};

/// Reads as its source does, and counts what is received, where there are counts. At its end it counts the
/// connection's.
pub struct CountingSource<'c, S: Source + Drop> {
    source: S,
    counts: Option<&'c StreamCounts>,
    /// What ended the connection, as far as reads show.
    cause: Cause,
}

impl<'c, S: Source + Drop> CountingSource<'c, S> {
    /// Before this source.
    pub fn of(source: S, counts: Option<&'c StreamCounts>) -> CountingSource<'c, S>
        ensures { result.source ≡ source }
    {
        CountingSource {
            source,
            counts,
            cause: Cause::Host,
        }
    }

    // Counts what a read came to.
    #[inline(always)]
    fn note(&mut self, pulled: Pulled)
        ensures { self.new.source ≡ self.old.source }
    {
        let Some(counts) = self.counts else {
            return;
        };
        if let Pulled::Got(count) = pulled {
            counts.note_received(count);
        } else {
            self.note_end(pulled);
        }
    }

    // Keeps what ended the connection: a read that gave nothing.
    #[cold]
    #[inline(never)]
    fn note_end(&mut self, pulled: Pulled)
        ensures { self.new.source ≡ self.old.source }
    {
        match pulled {
            Pulled::Got(_) => {}
            Pulled::End => self.cause = Cause::Client,
            Pulled::Failed => self.cause = Cause::Fault,
        }
    }
}

impl<S: Source + Drop> Source for CountingSource<'_, S> {
    ghost told = { λ s. S.told s.source };

    ghost faults = { λ s. S.faults s.source };

    #[inline(always)]
    fn read(&mut self, room: &mut [u8]) -> Pulled {
        let pulled = self.source.read(room);
        self.note(pulled);
        pulled
    }
}

impl<S: Source + Drop> Drop for CountingSource<'_, S> {
    fn drop(self) {
        let CountingSource {
            source: _,
            counts,
            cause,
        } = self;
        if let Some(counts) = counts {
            counts.note_end(cause);
        }
    }
}
