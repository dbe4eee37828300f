//! Turns of a row's phase, and the close of an ending.
ghost use Rattle.std.specs.Prelude.{ℕ, ◌≡◌, ◌≤◌, ◌+◌, true, false, length};
ghost use Rattle.claim_rule.specs.Desks.{IsOf, AddsSteps, AddsAtMost};
ghost use Rattle.claim_rule.specs.Calls.{AddsStepsBy};
ghost use Rattle.claim_rule.specs.EndSteps.{closing};
ghost use Rattle.claim_rule.specs.Out.{IsEnding, EndsNone, KeepsHolds};
ghost use Rattle.history_model.specs.Booking.{most_items};
ghost use Rattle.claim_rule.specs.Endings.{items_read};
ghost use Rattle.claim_rule.specs.Turns.{IsPresentIn};
ghost use Rattle.booking_rows.specs.Ends.{IsEndedAs};
ghost use Rattle.booking_rows.specs.Aims.{aimed, end_of, HasGeneration, MayAim, Turns, LeavesTurned, IfMade, OfEnding};

use claim_rule::{Books, Desk, Ending, StepTurned};
use history_model::booking::End;
use history_model::phase::{EndKind, Phase, phase_shown};
use history_model::successor::successor_word;
use rail_ids::RowNo;
use rail_time::Moment;

/// What a turn aims at. Amounts are in minor units; a difference is what the new booking costs more.
#[derive(Clone, Copy, PartialEq, Eq)]
pub enum Aim {
    Confirm {
        now: Moment,
    },
    Fulfil,
    Release {
        now: Moment,
    },
    Expire {
        now: Moment,
    },
    Refund {
        now: Moment,
        amount: u64,
    },
    Exchange {
        now: Moment,
        difference: i64,
        successor: RowNo,
    },
}

/// What a turn answers.
pub enum Turned {
    /// The row is confirmed, or fulfilled.
    Won,
    /// The row is ending, and its items are read.
    Ending(Ending),
    /// The row's word showed another phase than the one that the turn was to start from, or another generation: then
    /// `Free`.
    Lost { shown: Phase },
}

impl Aim {
    /// The phase that it leads to.
    pub fn phase(&self) -> Phase
        ensures phase { result ≡ aimed self.now }
    {
        match self {
            Aim::Confirm { .. } => Phase::Confirmed,
            Aim::Fulfil => Phase::Fulfilled,
            Aim::Release { .. } => Phase::Ending(EndKind::Release),
            Aim::Expire { .. } => Phase::Ending(EndKind::Expire),
            Aim::Refund { .. } => Phase::Ending(EndKind::Refund),
            Aim::Exchange { .. } => Phase::Ending(EndKind::Exchange),
        }
    }
}

impl Aim {
    ghost use Rattle.std.specs.Prelude.{◌<◌, ◌≤ℤ◌, ◌^◌};
    ghost use Rattle.history_model.specs.Booking.{greatest_difference, least_difference};

    // The moment of the end that it gives.
    fn moment(&self) -> u64
        ensures moment { result ≡ (end_of self.now).moment }
    {
        match self {
            Aim::Confirm { now } => now.seconds(),
            Aim::Fulfil => 0,
            Aim::Release { now } => now.seconds(),
            Aim::Expire { now } => now.seconds(),
            Aim::Refund { now, .. } => now.seconds(),
            Aim::Exchange { now, .. } => now.seconds(),
        }
    }

    // The amount of the end that it gives.
    fn amount(&self) -> i64
        requires amount { (end_of self.now).amount ≤ℤ greatest_difference }
        ensures amount { result ≡ (end_of self.now).amount }
    {
        match self {
            Aim::Refund { amount, .. } => *amount as i64,
            Aim::Exchange { difference, .. } => *difference,
            _ => 0,
        }
    }

    // The successor of the end that it gives, as its word, or 0.
    fn successor(&self) -> u64
        requires generation { HasGeneration self.now }
        ensures successor { result ≡ (end_of self.now).successor }
    {
        match self {
            Aim::Exchange { successor, .. } => successor_word(*successor),
            _ => 0,
        }
    }

    // The end that it gives.
    fn end(&self) -> End
        requires least { least_difference ≤ℤ (end_of self.now).amount }
        requires amount { (end_of self.now).amount ≤ℤ greatest_difference }
        requires generation { HasGeneration self.now }
        ensures end { result ≡ end_of self.now }
    {
        End {
            moment: self.moment(),
            amount: self.amount(),
            successor: self.successor(),
        }
    }
}

/// Turns a booking from this phase. In what the desk has seen it is sealed, and the turn is one that may be; for an
/// ending the desk has none out, and a successor is the booking of its hold.
///
/// `Won` for a confirmation and a fulfilment, `Ending` for the rest; `Lost` exactly where word 0 of the row showed
/// another phase, or another generation, of which it shows this booking as free.
pub fn turn(books: &Books, desk: &mut Desk, row: RowNo, from: Phase, to: Aim) -> Turned
    requires own { IsOf books.now desk.old }
    requires turn { MayAim books.now.layout desk.old row from to }
    requires generation { HasGeneration to }
    requires none { OfEnding to (λ _. EndsNone desk.old) }
    ensures own { IsOf books.now desk.new }
    ensures entries { AddsStepsBy (Turns row from to result) desk.old desk.new }
    ensures turned { IfMade result (IsPresentIn desk.new row (aimed to)) }
    ensures leaves { LeavesTurned row to desk.old desk.new result }
    ensures holds { KeepsHolds desk.old desk.new }
    ensures bound { AddsAtMost (most_items + 2) desk.old desk.new }
{
    let _ = books.rows();
    let end = to.end();
    match books.step_turn(
        desk,
        row,
        from,
        to.phase(),
        end.moment,
        end.amount,
        end.successor,
    ) {
        StepTurned::Won => Turned::Won,
        StepTurned::Missed { shown } => Turned::Lost {
            shown: phase_shown(shown, row.generation),
        },
        StepTurned::Ending(ending) => Turned::Ending(with_items(books, desk, ending)),
    }
}

// The ending with its items read.
fn with_items(books: &Books, desk: &mut Desk, mut ending: Ending) -> Ending
    requires own { IsOf books.now desk.old }
    requires ending { IsEnding desk.old ending }
    requires unread { (ending.read ≡ false) × (ending.given ≡ 0) }
    ensures own { IsOf books.now desk.new }
    ensures ending { IsEnding desk.new result }
    ensures read { result ≡ record ending { items = result.items; read = true } }
    ensures few { length result.items ≤ most_items }
    ensures entries { AddsSteps desk.old desk.new (items_read ending.row.row result.items) }
    ensures holds { KeepsHolds desk.old desk.new }
{
    books.step_items(desk, &mut ending);
    ending
}

/// Notes the end words, and closes the ending's row, where all its items are given back.
pub fn close_end(books: &Books, desk: &mut Desk, mut ending: Ending)
    requires own { IsOf books.now desk.old }
    requires ending { IsEnding desk.old ending }
    requires read { ending.read ≡ true }
    requires all { ending.given ≡ length ending.items }
    ensures own { IsOf books.now desk.new }
    ensures entries { AddsSteps desk.old desk.new (closing ending.row.row ending.kind ending.end) }
    ensures ended { IsEndedAs desk.new ending.row ending.kind ending.end }
    ensures none { EndsNone desk.new }
    ensures holds { KeepsHolds desk.old desk.new }
{
    let successor = ending.end_word(5);
    books.step_end(desk, &mut ending, 5, successor);
    let amount = ending.end_word(6);
    books.step_end(desk, &mut ending, 6, amount);
    let moment = ending.end_word(7);
    books.step_end(desk, &mut ending, 7, moment);
    books.step_close(desk, ending);
}
