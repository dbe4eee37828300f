//! A ticker that counts how often it was asked.
use crate::counters::Counters;
use rail_io::Ticker;

/// Ticks as its ticker does, and counts how often it was asked, where there are counts.
#[derive(Drop)]
pub struct CountingTicker<'c, T> {
    pub ticker: T,
    pub counters: Option<&'c Counters>,
}

impl<T: Ticker> Ticker for CountingTicker<'_, T> {
    ghost ticked = { λ before seconds answer after. T.ticked before.ticker seconds answer after.ticker };

    fn next_tick(&mut self, seconds: u32) -> bool {
        let ticked = self.ticker.next_tick(seconds);
        if let Some(counters) = self.counters {
            counters.note_sweep();
        }
        ticked
    }
}
