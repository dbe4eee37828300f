//! Collecting the ticket of a confirmed booking (OSDM's fulfilment).
ghost use Rattle.claim_rule.specs.Desks.{IsOf, AddsAtMost};
ghost use Rattle.claim_rule.specs.Calls.{AddsStepsBy};
ghost use Rattle.claim_rule.specs.Out.{KeepsHolds, KeepsEndings};
ghost use Rattle.claim_rule.specs.Turns.{IsPresentIn};
ghost use Rattle.history_model.specs.declared.phase.Phase.TheVariants.{Fulfilled};
ghost use Rattle.confirm_core.specs.Fulfilling.{Fulfils, IfFulfilled};

use crate::looks::find_owned;
use booking_rows::{Aim, Turned, turn};
use claim_rule::{Books, Desk};
use history_model::phase::Phase;
use rail_ids::{RetailerNo, RowNo};

/// What came of fulfilling.
#[derive(Clone, Copy, PartialEq, Eq)]
pub enum Fulfilment {
    /// The ticket is collected by this call.
    Done,
    /// The row is past the last, or its look shows the booking free, in the making, or another retailer's; or the
    /// second look, or the lost turn of this call, shows it free.
    Unknown,
    /// The look, or the lost turn of this call, shows another phase than confirmed, and no look shows it free.
    WrongState { shown: Phase },
}

/// Fulfils a confirmed booking of this retailer. At most 6 entries are added.
pub fn fulfil(books: &Books, desk: &mut Desk, row: RowNo, retailer: RetailerNo) -> Fulfilment
    requires own { IsOf books.now desk.old }
    ensures own { IsOf books.now desk.new }
    ensures entries { AddsStepsBy (Fulfils books.now.layout.rows row retailer.0 result) desk.old desk.new }
    ensures fulfilled { IfFulfilled result (IsPresentIn desk.new row Fulfilled) }
    ensures holds { KeepsHolds desk.old desk.new }
    ensures endings { KeepsEndings desk.old desk.new }
    ensures bound { AddsAtMost 6 desk.old desk.new }
{
    let Some(shown) = find_owned(books, desk, row, retailer) else {
        return Fulfilment::Unknown;
    };
    let Phase::Confirmed = shown else {
        return Fulfilment::WrongState { shown };
    };
    match turn(books, desk, row, Phase::Confirmed, Aim::Fulfil) {
        Turned::Won => Fulfilment::Done,
        Turned::Lost { shown } => match shown {
            Phase::Free => Fulfilment::Unknown,
            _ => Fulfilment::WrongState { shown },
        },
        Turned::Ending(_ending) => unreachable!(),
    }
}
