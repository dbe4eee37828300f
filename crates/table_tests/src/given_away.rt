ghost use Rattle.std.specs.Prelude.{◌≡◌, ◌<◌, ◌≤◌, length, slice_index};
ghost use Rattle.claim_rule.specs.Desks.{IsOf};
ghost use Rattle.claim_rule.specs.Out.{IsIdle};

use crate::rows::{book, moment, span, two_desks};
use booking_rows::{Aim, Turned, close_end, look_row, turn};
use claim_rule::{Books, Desk};
use expiry_sweeper::sweep;
use history_model::phase::Phase;
use rail_ids::{PlaceNo, RowNo};
use std::process::Abort;
use std::test::Fail;

// Ends a booking of leg 0 of place 0 a second after its limit, and books it again: the new booking.
fn give_away(rt: &impl Abort, books: &Books, desk: &mut Desk) -> RowNo
    requires own { IsOf books.now desk.old }
    requires idle { IsIdle desk.old }
    requires place { (0 < length books.now.layout.legs) × (2 ≤ slice_index books.now.layout.legs 0) }
    ensures own { IsOf books.now desk.new }
    ensures idle { IsIdle desk.new }
    ensures row { result.row < books.now.layout.rows }
    ensures number { desk.new.number ≡ desk.old.number }
{
    let swept = sweep(books, desk, moment(rt, 901));
    assert!(rt; swept.expired == 1);
    let leg = span(rt, 0, 1);
    book(rt, books, desk, PlaceNo(0), leg, moment(rt, 2000))
}

// The first desk looks at a booking. The second gives its row away, and then the first confirms the booking: the phase
// that it showed where the turn is lost, and the row's next booking.
fn confirm_late(
    rt: &impl Abort,
    books: &Books,
    first: &mut Desk,
    second: &mut Desk,
    row: RowNo,
) -> (Option<Phase>, RowNo)
    requires own { IsOf books.now first.old × IsOf books.now second.old }
    requires idle { IsIdle first.old × IsIdle second.old }
    requires row { row.row < books.now.layout.rows }
    requires place { (0 < length books.now.layout.legs) × (2 ≤ slice_index books.now.layout.legs 0) }
    ensures own { IsOf books.now first.new × IsOf books.now second.new }
    ensures idle { IsIdle first.new × IsIdle second.new }
    ensures row { result.1.row < books.now.layout.rows }
    ensures number { second.new.number ≡ second.old.number }
{
    if look_row(books, first, row).is_none() {
        panic!(rt; "the row is sealed");
    }
    let next = give_away(rt, books, second);
    let aim = Aim::Confirm { now: moment(rt, 0) };
    match turn(books, first, row, Phase::Prebooked, aim) {
        Turned::Won => (None, next),
        Turned::Lost { shown } => (Some(shown), next),
        Turned::Ending(ending) => {
            close_end(books, first, ending);
            (None, next)
        }
    }
}

/// A booking whose row another desk has ended and started again is seen no more, and no turn of it is won. Where no row
/// is free the next booking is on the row that was ended, in its next generation.
#[test]
fn another_desk_starts_the_row_again(rt: HostRuntime) -> Result<(), Fail> {
    let (books, mut first, mut second) = two_desks(rt.alloc())?;
    let (limit, later) = (moment(&rt, 900), moment(&rt, 2000));
    let row = book(&rt, &books, &mut first, PlaceNo(0), span(&rt, 0, 1), limit);
    let other = book(&rt, &books, &mut first, PlaceNo(0), span(&rt, 1, 2), later);
    assert!(rt; (row.row, other.row) == (0, 1));
    let (shown, next) = confirm_late(&rt, &books, &mut first, &mut second, row);
    assert!(rt; shown == Some(Phase::Free));
    assert!(rt;
        next == RowNo {
            row: 0,
            generation: 1,
        }
    );
    assert!(rt; look_row(&books, &mut first, row).is_none());
    let Some(view) = look_row(&books, &mut first, next) else {
        panic!(rt; "the next booking is sealed");
    };
    assert!(rt; view.phase == Phase::Prebooked);
    books.meet(&mut first, second);
    let wall = books.finish(first);
    assert!(rt; wall.row_word(0, 0) == Some(18));
    assert!(rt; wall.row_word(1, 0) == Some(2));
    Ok(())
}
