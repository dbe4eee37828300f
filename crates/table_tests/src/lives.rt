ghost use Rattle.std.specs.Prelude.{◌≡◌, ◌<◌, length, slice_index, ◌≤◌, All, IfOk, replicate};
ghost use Rattle.claim_rule.specs.Desks.{IsOf};
ghost use Rattle.claim_rule.specs.Out.{HoldsNone, EndsNone, IsIdle, KeepsEndings};

use booking_rows::{Detail, Sealed, look_row, note_detail, seal, start_hold};
use claim_rule::{Books, Desk, start_books};
use confirm_core::{Confirmed, confirm};
use expiry_sweeper::sweep;
use history_model::phase::{EndKind, Phase};
use hold_core::{Added, add_places};
use leg_masks::Span;
use rail_ids::{PlaceNo, RetailerNo, RowNo};
use rail_time::Moment;
use seat_words::glance;
use std::alloc::{AllocError, Global};
use std::process::Abort;
use std::test::Fail;
use std::thread;
use std::thread::Threads;

const RETAILER: RetailerNo = RetailerNo(7);

fn at(rt: &impl Abort, seconds: u64) -> Moment {
    Moment::of(seconds).expect(rt, "a moment")
}

// A prebooked booking of leg 0 of a place, to be confirmed by 900.
fn prebooked(rt: &impl Abort, books: &Books, desk: &mut Desk, place: PlaceNo) -> RowNo
    requires own { IsOf books.now desk.old }
    requires none { HoldsNone desk.old }
    requires place { place.0 < length books.now.layout.legs }
    requires legs { 1 ≤ slice_index books.now.layout.legs place.0 }
    ensures own { IsOf books.now desk.new }
    ensures none { HoldsNone desk.new }
    ensures number { desk.new.number ≡ desk.old.number }
    ensures endings { KeepsEndings desk.old desk.new }
{
    let mut hold = start_hold(books, desk).expect(rt, "a row");
    let span = Span::new(0, 1).expect(rt, "a span");
    let places = [place];
    let added = add_places(books, desk, &mut hold, places.as_slice(), span, 1);
    assert!(rt; added == Added::All);
    let count = hold.items().len();
    assert!(rt; count >= 1);
    let detail = Detail {
        retailer: RETAILER,
        limit: at(rt, 900),
        total: 100,
    };
    note_detail(books, desk, &mut hold, detail);
    seal(books, desk, hold, Sealed::Prebooked)
}

// New books of a thousand places of one leg, and as many rows.
fn thousand(alloc: Global) -> Result<(Books, Desk), AllocError>
    ensures own { IfOk result (λ t. IsOf t.0 t.1) }
    ensures idle { IfOk result (λ t. IsIdle t.1) }
    ensures first { IfOk result (λ t. t.1.number ≡ 0) }
    ensures legs { IfOk result (λ t. t.0.layout.legs ≡ replicate 1000 1) }
    ensures rows { IfOk result (λ t. t.0.layout.rows ≡ 1000) }
{
    let legs = Vec::from_elem(alloc, 1u8, 1000)?;
    let (books, desk) = start_books(alloc, legs.as_slice(), 1000)?;
    Ok((books, desk))
}

// Prebooks each of a thousand places, in the row of its number. A search for a row has at most as many entries as it
// moves on the first row that isn't known to be taken, so each of these has one.
fn book_all(rt: &impl Abort, books: &Books, desk: &mut Desk)
    requires own { IsOf books.now desk.old }
    requires none { HoldsNone desk.old }
    requires legs { books.now.layout.legs ≡ replicate 1000 1 }
    ensures own { IsOf books.now desk.new }
    ensures none { HoldsNone desk.new }
    ensures number { desk.new.number ≡ desk.old.number }
{
    for place in 0..1000 {
        assert!(rt; desk.past() == place);
        let want = RowNo {
            row: place,
            generation: 0,
        };
        assert!(rt; prebooked(rt, books, desk, PlaceNo(place)) == want);
        assert!(rt; desk.past() == place + 1);
    }
}

// A desk, and how many rows it decided.
#[derive(Drop)]
struct Member {
    desk: Desk,
    decided: u32,
}

// Confirms each row that it can.
fn confirm_all(books: &Books, member: &mut Member, now: Moment)
    requires own { IsOf books.now member.old.desk }
{
    for row in 0..books.rows() {
        if let Confirmed::Done = confirm(
            books,
            &mut member.desk,
            RowNo { row, generation: 0 },
            RETAILER,
            now,
        ) {
            member.decided = member.decided.saturating_add(1);
        }
    }
}

// Expires each row that it can.
fn sweep_all(books: &Books, member: &mut Member, now: Moment)
    requires own { IsOf books.now member.old.desk }
    requires none { EndsNone member.old.desk }
{
    let swept = sweep(books, &mut member.desk, now);
    member.decided = swept.expired;
}

// The first member confirms and the second one sweeps, at the same time.
fn play<R: Threads + Sync>(
    rt: &R,
    books: &Books,
    members: &mut [Member],
    early: Moment,
    late: Moment,
)
    requires own { All (λ m. IsOf books.now m.desk × EndsNone m.desk) members.old }
{
    thread::for_each_mut(
        rt,
        members,
        2,
        &|i: usize, member: &mut Member|
            requires { IsOf books.now member.old.desk × EndsNone member.old.desk }
        {
            if i == 0 {
                confirm_all(books, member, early);
            } else {
                sweep_all(books, member, late);
            }
        },
    );
}

/// Of a confirmation and an expiry of each of a thousand rows one is won, and a place is free exactly where its row
/// has expired.
#[test]
fn one_confirms_and_one_sweeps(rt: HostRuntime) -> Result<(), Fail> {
    let (books, mut desk) = thousand(rt.alloc())?;
    book_all(&rt, &books, &mut desk);
    let confirming = books.part(&mut desk);
    let sweeping = books.part(&mut desk);
    let mut members = [
        Member {
            desk: confirming,
            decided: 0,
        },
        Member {
            desk: sweeping,
            decided: 0,
        },
    ];
    play(
        &rt,
        &books,
        members.as_mut_slice(),
        at(&rt, 900),
        at(&rt, 901),
    );
    let won = members[0].decided;
    let expired = members[1].decided;
    assert!(rt; u64::from(won) + u64::from(expired) == 1000);
    let confirmed = count_confirmed(&rt, &books, &mut desk);
    assert!(rt; confirmed == won);
    Ok(())
}

// How many rows are confirmed. Each other one has expired, and its place alone is free.
fn count_confirmed(rt: &impl Abort, books: &Books, desk: &mut Desk) -> u32
    requires own { IsOf books.now desk.old }
    requires legs { books.now.layout.legs ≡ replicate 1000 1 }
    requires rows { books.now.layout.rows ≡ 1000 }
{
    let mut confirmed: u32 = 0;
    for row in 0..1000 {
        let word = glance(books, desk, PlaceNo(row), 0);
        let phase = match look_row(books, desk, RowNo { row, generation: 0 }) {
            Some(view) => view.phase,
            None => Phase::Free,
        };
        if phase == Phase::Confirmed {
            confirmed = confirmed.saturating_add(1);
            assert!(rt; word == 1);
        } else {
            assert!(rt; phase == Phase::Ended(EndKind::Expire));
            assert!(rt; word == 0);
        }
    }
    confirmed
}
