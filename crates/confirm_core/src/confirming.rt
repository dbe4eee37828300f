//! Confirming a booking (OSDM's confirmation of a prebooked offer).
ghost use Rattle.std.specs.Prelude.{IfSome};
ghost use Rattle.claim_rule.specs.Desks.{IsOf, AddsAtMost};
ghost use Rattle.claim_rule.specs.Calls.{AddsStepsBy};
ghost use Rattle.claim_rule.specs.Out.{KeepsHolds, KeepsEndings};
ghost use Rattle.confirm_core.specs.Looks.{HasLimit};
ghost use Rattle.claim_rule.specs.Turns.{IsPresentIn};
ghost use Rattle.history_model.specs.declared.phase.Phase.TheVariants.{Confirmed as IsConfirmedPhase};
ghost use Rattle.confirm_core.specs.Confirming.{Confirms, IfConfirmed, FindsTerms};

use crate::looks::{is_sealed, look_phase, look_word};
use booking_rows::{Aim, Turned, turn};
use claim_rule::{Books, Desk};
use history_model::booking::{LIMIT_WORD, RETAILER_WORD};
use history_model::phase::Phase;
use rail_ids::{RetailerNo, RowNo};
use rail_time::Moment;

/// What came of confirming.
#[derive(Clone, Copy, PartialEq, Eq)]
pub enum Confirmed {
    /// The booking is confirmed by this call.
    Done,
    /// The row is past the last, or its look shows the booking free, in the making, or another retailer's; or the
    /// second look, or the lost turn of this call, shows it free.
    Unknown,
    /// The look shows the booking prebooked, and now is after its limit.
    TooLate { limit: Moment },
    /// The look, or the lost turn of this call, shows another phase than prebooked, and no look shows it free.
    WrongState { shown: Phase },
}

/// Confirms a prebooked booking of this retailer, where now is not after its limit. At most 6 entries are added.
pub fn confirm(
    books: &Books,
    desk: &mut Desk,
    row: RowNo,
    retailer: RetailerNo,
    now: Moment,
) -> Confirmed
    requires own { IsOf books.now desk.old }
    ensures own { IsOf books.now desk.new }
    ensures entries { AddsStepsBy (Confirms books.now.layout.rows row retailer.0 now result) desk.old desk.new }
    ensures confirmed { IfConfirmed result (IsPresentIn desk.new row IsConfirmedPhase) }
    ensures holds { KeepsHolds desk.old desk.new }
    ensures endings { KeepsEndings desk.old desk.new }
    ensures bound { AddsAtMost 6 desk.old desk.new }
{
    let Some(terms) = find_terms(books, desk, row, retailer) else {
        return Confirmed::Unknown;
    };
    let Terms { shown, limit } = terms;
    let Phase::Prebooked = shown else {
        return Confirmed::WrongState { shown };
    };
    if limit.seconds() < now.seconds() {
        return Confirmed::TooLate { limit };
    }
    match turn(books, desk, row, Phase::Prebooked, Aim::Confirm { now }) {
        Turned::Won => Confirmed::Done,
        Turned::Lost { shown } => match shown {
            Phase::Free => Confirmed::Unknown,
            _ => Confirmed::WrongState { shown },
        },
        Turned::Ending(_ending) => unreachable!(),
    }
}

// What looks at a booking showed.
#[derive(Clone, Copy, PartialEq, Eq)]
struct Terms {
    shown: Phase,
    limit: Moment,
}

// The phase and the limit of this retailer's booking, by looks at them and at its phase again.
fn find_terms(books: &Books, desk: &mut Desk, row: RowNo, retailer: RetailerNo) -> Option<Terms>
    requires own { IsOf books.now desk.old }
    ensures own { IsOf books.now desk.new }
    ensures entries { AddsStepsBy (FindsTerms books.now.layout.rows row retailer.0 result) desk.old desk.new }
    ensures limit { IfSome result (λ terms. HasLimit desk.new row terms.limit) }
    ensures holds { KeepsHolds desk.old desk.new }
    ensures endings { KeepsEndings desk.old desk.new }
{
    if row.row >= books.rows() {
        return None;
    }
    let shown = look_phase(books, desk, row);
    if !is_sealed(shown) {
        return None;
    }
    let owner = look_word(books, desk, row, RETAILER_WORD);
    let limit = look_word(books, desk, row, LIMIT_WORD);
    let last = look_phase(books, desk, row);
    if let Phase::Free = last {
        return None;
    }
    if owner != u64::from(retailer.0) {
        return None;
    }
    match Moment::of(limit) {
        Some(limit) => Some(Terms { shown, limit }),
        None => unreachable!(),
    }
}
