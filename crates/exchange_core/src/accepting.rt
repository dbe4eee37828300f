//! Carrying an exchange out.
ghost use Rattle.std.specs.Prelude.{◌≡◌, ◌+◌, ◌*◌};
ghost use Rattle.history_model.specs.Booking.{most_items};
ghost use Rattle.history_model.specs.declared.phase.Phase.TheVariants.{Confirmed};
ghost use Rattle.history_model.specs.History.{own};
ghost use Rattle.claim_rule.specs.Desks.{IsOf, AddsAtMost};
ghost use Rattle.claim_rule.specs.Calls.{AddsStepsBy};
ghost use Rattle.claim_rule.specs.Out.{IsHolding, IsToBeSealed, HoldsNone, EndsNone, SealsItems, AreSettled};
ghost use Rattle.exchange_core.specs.Ready.{IsReadyFor};
ghost use Rattle.exchange_core.specs.Accepting.{AcceptsExchange, OnDone, OnLost, IsExchanged, exchange_end};

use crate::readying::ExchangeReady;
use booking_rows::{Aim, Sealed, Turned, seal, turn};
use claim_rule::{Books, Desk, Hold};
use confirm_core::finish_end;
use history_model::phase::Phase;
use rail_ids::RowNo;
use refund_core::phase_named;

/// What came of carrying an exchange out.
pub enum Exchanged {
    /// The old booking has ended by exchange, and the one in this row is sealed as confirmed; it costs this much more,
    /// in minor units.
    Done { new: RowNo, difference: i64 },
    /// The turn was lost: the old booking shows another phase than the code names, free where its row was given away.
    /// The hold is as it was.
    WrongState { shown: Phase, hold: Hold },
}

/// Exchanges a booking for the one that is held, by a quote that was checked. It turns the old booking from the phase
/// that the code names, seals the new one as confirmed, and ends the old one with all its items given back. Its end has
/// the moment of the check, the code's difference, and the new booking as its successor. Where the turn is lost,
/// nothing else has changed.
///
/// The hold is ready to be sealed, and the desk has no ending out. At most 103 entries are added.
pub fn accept_exchange(
    books: &Books,
    desk: &mut Desk,
    hold: Hold,
    ready: ExchangeReady,
) -> Exchanged
    requires own { IsOf books.now desk.old }
    requires hold { IsHolding desk.old hold }
    requires noted { IsToBeSealed desk.old hold }
    requires none { EndsNone desk.old }
    requires ready { IsReadyFor desk.old ready }
    ensures own { IsOf books.now desk.new }
    ensures entries { AddsStepsBy (AcceptsExchange ready hold.row result) desk.old desk.new }
    ensures items { OnDone result (SealsItems desk.old desk.new hold.row Confirmed hold.items) }
    ensures ended { OnDone result (IsExchanged desk.new ready.code.row (exchange_end ready hold.row)) }
    ensures holds_none { OnDone result (HoldsNone desk.new) }
    ensures lost { OnLost result (λ h. (h ≡ hold) × IsHolding desk.new h) }
    ensures noted { OnLost result (IsToBeSealed desk.new) }
    ensures none { EndsNone desk.new }
    ensures settled { AreSettled (own desk.old.seen desk.old.number) → AreSettled (own desk.new.seen desk.new.number) }
    ensures bound { AddsAtMost (2 * most_items + 7) desk.old desk.new }
{
    let row = ready.code.row;
    let difference = ready.code.difference;
    let from = phase_named(ready.code.fulfilled);
    let to = Aim::Exchange {
        now: ready.moment,
        difference,
        successor: hold.row(),
    };
    match turn(books, desk, row, from, to) {
        Turned::Won => unreachable!(),
        Turned::Lost { shown } => Exchanged::WrongState { shown, hold },
        Turned::Ending(ending) => {
            let new = seal(books, desk, hold, Sealed::Confirmed);
            finish_end(books, desk, ending);
            Exchanged::Done { new, difference }
        }
    }
}
