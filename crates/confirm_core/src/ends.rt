//! A turn to an end, and what its owner does after it.
ghost use Rattle.std.specs.Prelude.{◌≡◌, true, IfNone};
ghost use Rattle.history_model.specs.Booking.{most_items};
ghost use Rattle.history_model.specs.declared.phase.EndKind.{EndKind};
ghost use Rattle.history_model.specs.declared.phase.Phase.TheVariants as phase;
ghost use Rattle.claim_rule.specs.Desks.{IsOf, AddsSteps};
ghost use Rattle.claim_rule.specs.Calls.{AddsStepsBy};
ghost use Rattle.claim_rule.specs.EndSteps.{ending_steps};
ghost use Rattle.claim_rule.specs.Out.{IsEnding, EndsNone, KeepsHolds};
ghost use Rattle.booking_rows.specs.Aims.{aimed, end_of, HasGeneration, MayAim, OfEnding};
ghost use Rattle.booking_rows.specs.Ends.{IsEndedAs};
ghost use Rattle.confirm_core.specs.RowEnds.{EndsBooking};

use booking_rows::{Aim, Turned, close_end, turn};
use claim_rule::{Books, Desk, Ending};
use history_model::phase::Phase;
use rail_ids::RowNo;
use seat_words::give_all;

/// Gives all items of an ending back, notes its end, and closes its row. None is given back yet.
pub fn finish_end(books: &Books, desk: &mut Desk, mut ending: Ending)
    requires own { IsOf books.now desk.old }
    requires ending { IsEnding desk.old ending }
    requires read { ending.read ≡ true }
    requires fresh { ending.given ≡ 0 }
    ensures own { IsOf books.now desk.new }
    ensures entries { AddsSteps desk.old desk.new (ending_steps ending.row.row ending.kind ending.end ending.items) }
    ensures ended { IsEndedAs desk.new ending.row ending.kind ending.end }
    ensures none { EndsNone desk.new }
    ensures holds { KeepsHolds desk.old desk.new }
{
    give_all(books, desk, &mut ending);
    close_end(books, desk, ending);
}

/// Turns a booking from this phase to an end, gives all of its items back, and closes its row. `Some` is the phase that
/// its row showed it exactly where that was another than this one, free where the row was given away: then nothing else
/// is done.
pub fn end_row(books: &Books, desk: &mut Desk, row: RowNo, from: Phase, to: Aim) -> Option<Phase>
    requires own { IsOf books.now desk.old }
    requires turn { MayAim books.now.layout desk.old row from to }
    requires generation { HasGeneration to }
    requires ends { (kind : EndKind) × (aimed to ≡ phase.Ending kind) }
    requires none { EndsNone desk.old }
    ensures own { IsOf books.now desk.new }
    ensures entries { OfEnding to (λ kind. AddsStepsBy (EndsBooking row from kind to result) desk.old desk.new) }
    ensures ended { IfNone result (OfEnding to (λ kind. IsEndedAs desk.new row kind (end_of to))) }
    ensures none { EndsNone desk.new }
    ensures holds { KeepsHolds desk.old desk.new }
{
    match turn(books, desk, row, from, to) {
        Turned::Won => unreachable!(),
        Turned::Lost { shown } => Some(shown),
        Turned::Ending(ending) => {
            finish_end(books, desk, ending);
            None
        }
    }
}
