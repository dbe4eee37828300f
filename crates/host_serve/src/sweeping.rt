// The member that sweeps.
ghost use Rattle.std.specs.Prelude.{◌≡◌, ◌↔◌, true, not};
ghost use Rattle.rail_io.specs.declared.clock.Reach.TheVariants.{Changes};
ghost use Rattle.claim_rule.specs.Desks.{IsOf};
ghost use Rattle.claim_rule.specs.Calls.{AddsStepsBy};
ghost use Rattle.claim_rule.specs.Out.{EndsNone, IsTidy, KeepsHolds};
ghost use Rattle.expiry_sweeper.specs.AllRows.{Sweeps};
ghost use Rattle.worker_pool.specs.Turns.{KeepsDesk};
ghost use Rattle.worker_pool.specs.declared.worker.TurnEnd.TheVariants.{End};
ghost use Rattle.host_serve.specs.Turns.{SweepsTurn};

use booking_rows::Swept;
use claim_rule::{Books, Desk};
use expiry_sweeper::sweep;
use host_window::Findings;
use rail_io::{Clock, Reach, Ticker};
use rail_time::Moment;
use worker_pool::TurnEnd;

/// Sweeps all rows at each tick, at its clock's moment, until the ticker ends.
#[derive(Drop)]
pub struct Sweeper<'f, T, C> {
    pub ticker: T,
    /// The seconds from one tick to the next.
    pub seconds: u32,
    pub clock: C,
    /// Is told what each sweep found, where there is one.
    pub findings: Option<&'f Findings>,
    /// Whether the ticker has ended.
    pub ended: bool,
}

/// Sweeps once, where a command that may change bookings has begun at the clock.
fn sweep_begun<C: Clock>(clock: &C, books: &Books, desk: &mut Desk, now: Moment) -> Swept
    requires begun { C.begun clock.now Changes }
    requires own { IsOf books.now desk.old }
    requires none { EndsNone desk.old }
    ensures own { IsOf books.now desk.new }
    ensures entries { AddsStepsBy (Sweeps books.now.layout.rows now result) desk.old desk.new }
    ensures none { EndsNone desk.new }
    ensures holds { KeepsHolds desk.old desk.new }
    ensures tidy { IsTidy desk.old → IsTidy desk.new }
{
    let _ = clock;
    sweep(books, desk, now)
}

// Tells what a sweep found.
fn tell(findings: Option<&Findings>, swept: Swept) {
    if let Some(findings) = findings {
        findings.note_swept(swept.expired, swept.lost, swept.waiting);
    }
}

impl<T: Ticker, C: Clock> Sweeper<'_, T, C> {
    /// Waits for the next tick, for which the ticker is asked once, and sweeps once where it ticks; else it ends.
    pub fn take_turn(&mut self, books: &Books, desk: &mut Desk) -> TurnEnd
        requires own { IsOf books.now desk.old }
        requires tidy { IsTidy desk.old }
        ensures own { IsOf books.now desk.new }
        ensures tidy { IsTidy desk.new }
        ensures keeps { KeepsDesk desk.old desk.new }
        ensures turn { SweepsTurn (record { desk = desk.old; clock = C.told self.old.clock })
            (record { desk = desk.new; clock = C.told self.new.clock }) self.new.ended }
        ensures ticked { T.ticked self.old.ticker self.old.seconds (not self.new.ended) self.new.ticker }
        ensures interval { self.new.seconds ≡ self.old.seconds }
        ensures end { (result ≡ End) ↔ (self.new.ended ≡ true) }
    {
        if !self.ticker.next_tick(self.seconds) {
            self.ended = true;
            return TurnEnd::End;
        }
        let now = self.clock.now();
        self.clock.begin(Reach::Changes);
        let swept = sweep_begun(&self.clock, books, desk, now);
        tell(self.findings, swept);
        let _cut = self.clock.end();
        self.ended = false;
        TurnEnd::Again
    }
}
