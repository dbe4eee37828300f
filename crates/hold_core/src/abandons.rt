//! Giving a hold up.
ghost use Rattle.std.specs.Prelude.{◌≡◌, length, Some};
ghost use Rattle.history_model.specs.Booking.{most_items};
ghost use Rattle.claim_rule.specs.Desks.{IsOf, AddsSteps, AddsAtMost};
ghost use Rattle.claim_rule.specs.Out.{IsHolding, HoldsNone, KeepsEndings};
ghost use Rattle.hold_core.specs.Places.{gives_back};

use booking_rows::keep_row;
use claim_rule::{Books, Desk, Hold};
use seat_words::undo_last;

/// Gives every item of the hold back, the last one first. The desk keeps the row, without items, for its next hold.
pub fn abandon(books: &Books, desk: &mut Desk, mut hold: Hold)
    requires own { IsOf books.now desk.old }
    requires hold { IsHolding desk.old hold }
    ensures own { IsOf books.now desk.new }
    ensures entries { AddsSteps desk.old desk.new (gives_back hold.row.row (length hold.items)) }
    ensures kept { desk.new.kept ≡ Some hold.row }
    ensures none { HoldsNone desk.new }
    ensures endings { KeepsEndings desk.old desk.new }
    ensures bound { AddsAtMost most_items desk.old desk.new }
{
    for _ in 0..hold.items().len() {
        undo_last(books, desk, &mut hold);
    }
    keep_row(desk, hold);
}
