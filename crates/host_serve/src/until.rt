// A ticker that ends with the streams.
use crate::looker::end;
use crate::member::Common;
use crate::shared_listener::Named;
use crate::streams::{Door, part};
use answer_gate::Gate;
use host_window::Findings;
use rail_io::Ticker;
use rail_service::Listener;
use std::sync::Wait;

/// Ticks as its ticker does, until that one ends, or no more streams are handed out here.
#[derive(Drop)]
pub struct Until<'d, 's, R, T, L: Listener + Drop, N: Named> {
    pub ticker: T,
    pub door: &'d Door<L, N>,
    /// Is told once it has ended, where there is one.
    pub gate: Option<&'s Gate>,
    /// Is ended then, where there is one.
    pub findings: Option<&'s Findings>,
    pub rt: &'s R,
}

impl<'d, 's, R, T, L: Listener + Drop, N: Named> Until<'d, 's, R, T, L, N> {
    ghost use Rattle.std.specs.Prelude.{◌≡◌};

    /// One that ends with this ticker or with these streams, and then tells the gate, and whoever looks.
    pub fn of(ticker: T, door: &'d Door<L, N>, common: Common<'s>, rt: &'s R) -> Self
        ensures { result.ticker ≡ ticker }
    {
        Until {
            ticker,
            door,
            gate: common.gate,
            findings: common.findings,
            rt,
        }
    }
}

impl<R: Wait, T: Ticker, L: Listener + Drop, N: Named> Ticker for Until<'_, '_, R, T, L, N> {
    ghost use Rattle.host_serve.specs.Turns.{TicksUntil};

    ghost ticked = { λ t seconds answer u. TicksUntil T.ticked N.over t.ticker seconds answer u.ticker };

    fn next_tick(&mut self, seconds: u32) -> bool {
        let ticks = self.ticker.next_tick(seconds) && self.door.mark.get().is_none();
        if !ticks {
            part(self.gate, self.rt);
            end(self.findings, self.rt);
        }
        ticks
    }
}
