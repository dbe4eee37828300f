ghost use Rattle.std.specs.Prelude.{◌≢◌, ◌<◌};
ghost use Rattle.claim_rule.specs.Desks.{IsOf};
ghost use Rattle.claim_rule.specs.Out.{EndsNone, IsIdle};
ghost use Rattle.cold_store.specs.Exports.{IsClosed};

use crate::rows::{book, moment, span, start, take, two_desks};
use booking_rows::{Aim, Turned, look_row, turn};
use claim_rule::{Books, Desk, Wall};
use cold_store::{ExportFault, export_text};
use history_model::phase::Phase;
use rail_ids::{PlaceNo, RowNo};
use std::alloc::Global;
use std::process::Abort;
use std::test::Fail;

// The wall of the books as the desk leaves them.
fn wall_of(books: Books, desk: Desk) -> Wall
    requires own { IsOf books desk }
    requires idle { IsIdle desk }
    ensures closed { IsClosed result }
{
    let _ = books.places();
    books.finish(desk)
}

// The fault of the export of the books as the first desk leaves them.
fn fault_is(rt: &impl Abort, alloc: Global, books: Books, desk: Desk, fault: ExportFault)
    requires own { IsOf books desk }
    requires idle { IsIdle desk }
{
    let wall = wall_of(books, desk);
    match export_text(alloc, &wall) {
        Ok(_) => panic!(rt; "an export"),
        Err(found) => assert!(rt; found == fault),
    }
}

// Turns a prebooked booking to its release, and gives the desk up.
fn leave_ending(rt: &impl Abort, books: &Books, mut desk: Desk, row: RowNo)
    requires own { IsOf books.now desk }
    requires none { EndsNone desk }
    requires row { row.row < books.now.layout.rows }
    requires other { desk.number ≢ 0 }
{
    if look_row(books, &mut desk, row).is_none() {
        panic!(rt; "the row is sealed");
    }
    let aim = Aim::Release {
        now: moment(rt, 800),
    };
    match turn(books, &mut desk, row, Phase::Prebooked, aim) {
        Turned::Ending(ending) => ending.leave(desk),
        Turned::Won | Turned::Lost { .. } => panic!(rt; "not released"),
    }
}

/// A desk that was given up in the middle of an ending leaves a row that no export has.
#[test]
fn an_ending_left_is_open(rt: HostRuntime) -> Result<(), Fail> {
    let (books, first, mut second) = two_desks(rt.alloc())?;
    let legs = span(&rt, 0, 2);
    let limit = moment(&rt, 900);
    let row = book(&rt, &books, &mut second, PlaceNo(0), legs, limit);
    assert!(rt; row.row == 0);
    leave_ending(&rt, &books, second, row);
    fault_is(
        &rt,
        rt.alloc(),
        books,
        first,
        ExportFault::RowOpen { row: 0 },
    );
    Ok(())
}

/// And one in the middle of a hold a place.
#[test]
fn a_hold_left_holds_its_place(rt: HostRuntime) -> Result<(), Fail> {
    let (books, first, mut second) = two_desks(rt.alloc())?;
    let leg = span(&rt, 0, 1);
    let mut hold = start(&rt, &books, &mut second);
    take(&rt, &books, &mut second, &mut hold, PlaceNo(0), leg);
    hold.leave(second);
    fault_is(
        &rt,
        rt.alloc(),
        books,
        first,
        ExportFault::PlaceHeld { place: 0 },
    );
    Ok(())
}
