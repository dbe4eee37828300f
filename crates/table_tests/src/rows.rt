ghost use Rattle.std.specs.Prelude.{ℕ, ◌≡◌, ◌<◌, ◌≤◌, ◌≢◌, [], ◌∷◌, length, slice_index, IfOk};
ghost use mathlib.Core.List.{IsPrefix};
ghost use Rattle.leg_masks.specs.Interval.{IsPiece};
ghost use Rattle.claim_rule.specs.Desks.{IsOf};
ghost use Rattle.claim_rule.specs.Out.{IsHolding, IsIdle, HoldsNone, KeepsEndings};

use booking_rows::{
    Aim, Detail, Sealed, Turned, close_end, keep_row, look_row, note_detail, note_item, seal,
    start_hold, turn,
};
use claim_rule::{Books, Desk, Hold, start_books};
use history_model::booking::MOST_ITEMS;
use history_model::phase::Phase;
use leg_masks::{Span, free_on, half_of};
use rail_ids::{PlaceNo, RetailerNo, RowNo};
use rail_time::Moment;
use seat_words::{Take, glance, try_take, undo_last};
use std::alloc::{AllocError, Global};
use std::process::Abort;
use std::test::Fail;

const RETAILER: RetailerNo = RetailerNo(7);

// Takes the legs of a place for a hold without items.
pub(crate) fn take(
    rt: &impl Abort,
    books: &Books,
    desk: &mut Desk,
    hold: &mut Hold,
    place: PlaceNo,
    span: Span,
)
    requires own { IsOf books.now desk.old }
    requires hold { IsHolding desk.old hold.old }
    requires none { hold.old.items ≡ [] }
    requires place { place.0 < length books.now.layout.legs }
    requires piece { IsPiece span }
    requires legs { span.to ≤ slice_index books.now.layout.legs place.0 }
    ensures own { IsOf books.now desk.new }
    ensures hold { IsHolding desk.new hold.new }
    ensures one { hold.new.items ≡ record { place = place.0; span = span } ∷ [] }
    ensures number { desk.new.number ≡ desk.old.number }
    ensures endings { KeepsEndings desk.old desk.new }
{
    let word = glance(books, desk, place, half_of(span));
    assert!(rt; free_on(word, span));
    match try_take(books, desk, hold, place, span, word) {
        Take::Won => {}
        Take::Taken { shown } => panic!(rt; "taken: {shown}"),
        Take::Moving { shown } => panic!(rt; "moving: {shown}"),
    }
}

// Notes and seals a hold of one item.
fn close_hold(books: &Books, desk: &mut Desk, mut hold: Hold, limit: Moment) -> RowNo
    requires own { IsOf books.now desk.old }
    requires hold { IsHolding desk.old hold }
    requires one { length hold.items ≡ 1 }
    ensures own { IsOf books.now desk.new }
    ensures none { HoldsNone desk.new }
    ensures row { result.row < books.now.layout.rows }
    ensures number { desk.new.number ≡ desk.old.number }
    ensures endings { KeepsEndings desk.old desk.new }
{
    note_item(books, desk, &mut hold);
    let detail = Detail {
        retailer: RETAILER,
        limit,
        total: 1900,
    };
    note_detail(books, desk, &mut hold, detail);
    seal(books, desk, hold, Sealed::Prebooked)
}

// Books the legs of a place.
pub(crate) fn book(
    rt: &impl Abort,
    books: &Books,
    desk: &mut Desk,
    place: PlaceNo,
    span: Span,
    limit: Moment,
) -> RowNo
    requires own { IsOf books.now desk.old }
    requires none { HoldsNone desk.old }
    requires place { place.0 < length books.now.layout.legs }
    requires piece { IsPiece span }
    requires legs { span.to ≤ slice_index books.now.layout.legs place.0 }
    ensures own { IsOf books.now desk.new }
    ensures none { HoldsNone desk.new }
    ensures row { result.row < books.now.layout.rows }
    ensures number { desk.new.number ≡ desk.old.number }
    ensures endings { KeepsEndings desk.old desk.new }
{
    match start_hold(books, desk) {
        Some(mut hold) => {
            take(rt, books, desk, &mut hold, place, span);
            close_hold(books, desk, hold, limit)
        }
        None => panic!(rt; "no row is free"),
    }
}

// New books with two places of three legs and two rows, and two desks.
pub(crate) fn two_desks(alloc: Global) -> Result<(Books, Desk, Desk), AllocError>
    ensures own { IfOk result (λ t. IsOf t.0 t.1 × IsOf t.0 t.2) }
    ensures idle { IfOk result (λ t. IsIdle t.1 × IsIdle t.2) }
    ensures other { IfOk result (λ t. t.2.number ≢ 0) }
    ensures place { IfOk result (λ t. (0 < length t.0.layout.legs) × (2 ≤ slice_index t.0.layout.legs 0)) }
{
    let (books, mut first) = start_books(alloc, &[3, 3], 2)?;
    let second = books.part(&mut first);
    Ok((books, first, second))
}

// The span of these legs.
pub(crate) fn span(rt: &impl Abort, from: u8, to: u8) -> Span
    ensures span { result ≡ record { from = from; to = to } }
{
    match Span::new(from, to) {
        Some(span) => span,
        None => panic!(rt; "no span"),
    }
}

// The moment of these seconds.
pub(crate) fn moment(rt: &impl Abort, seconds: u64) -> Moment
    ensures moment { result ≡ seconds }
{
    match Moment::of(seconds) {
        Some(moment) => moment,
        None => panic!(rt; "no moment"),
    }
}

// Lets a desk learn what another one has seen.
fn tell_on(books: &Books, from: &mut Desk, to: &mut Desk)
    requires own { IsOf books.now from.old }
    requires other { IsOf books.now to.old }
    ensures own { IsOf books.now to.new }
    ensures same { from.new ≡ from.old }
    ensures learned { IsPrefix from.old.seen to.new.seen }
{
    let told = books.tell(from);
    books.learn(to, told);
}

// Looks at a row and turns it from prebooked to confirmed, at the first of all moments: the phase that it showed where
// the turn is lost.
fn confirm_first(rt: &impl Abort, books: &Books, desk: &mut Desk, row: RowNo) -> Option<Phase>
    requires own { IsOf books.now desk.old }
    requires row { row.row < books.now.layout.rows }
    ensures own { IsOf books.now desk.new }
{
    if look_row(books, desk, row).is_none() {
        panic!(rt; "the row is sealed");
    }
    let aim = Aim::Confirm { now: moment(rt, 0) };
    match turn(books, desk, row, Phase::Prebooked, aim) {
        Turned::Won => None,
        Turned::Lost { shown } => Some(shown),
        Turned::Ending(ending) => {
            close_end(books, desk, ending);
            None
        }
    }
}

/// A desk that was told what another one has seen finds the other's booking. Of two turns from one phase the first
/// decides.
#[test]
fn what_was_told_is_found(rt: HostRuntime) -> Result<(), Fail> {
    let (books, mut first, mut second) = two_desks(rt.alloc())?;
    let limit = moment(&rt, 900);
    let row = book(&rt, &books, &mut first, PlaceNo(0), span(&rt, 0, 2), limit);
    tell_on(&books, &mut first, &mut second);
    assert!(rt; confirm_first(&rt, &books, &mut second, row) == None);
    assert!(rt; confirm_first(&rt, &books, &mut first, row) == Some(Phase::Confirmed));
    Ok(())
}

// Tries to take legs of place 0, where the word expected is free on them.
fn try_on(
    rt: &impl Abort,
    books: &Books,
    desk: &mut Desk,
    hold: &mut Hold,
    span: Span,
    expected: u64,
) -> Take
    requires own { IsOf books.now desk.old }
    requires hold { IsHolding desk.old hold.old }
    requires place { (0 < length books.now.layout.legs) × (span.to ≤ slice_index books.now.layout.legs 0) }
    requires piece { IsPiece span }
    ensures own { IsOf books.now desk.new }
    ensures hold { IsHolding desk.new hold.new }
    ensures number { desk.new.number ≡ desk.old.number }
    ensures endings { KeepsEndings desk.old desk.new }
{
    assert!(rt; free_on(expected, span));
    assert!(rt; hold.items().len() < MOST_ITEMS);
    try_take(books, desk, hold, PlaceNo(0), span, expected)
}

// The second desk takes legs between the first one's look at the place and its try, which is told the word that it
// finds.
fn contend(
    rt: &impl Abort,
    books: &Books,
    first: &mut Desk,
    one: &mut Hold,
    second: &mut Desk,
    two: &mut Hold,
)
    requires own { IsOf books.now first.old × IsOf books.now second.old }
    requires holds { IsHolding first.old one.old × IsHolding second.old two.old }
    requires place { (0 < length books.now.layout.legs) × (2 ≤ slice_index books.now.layout.legs 0) }
    ensures own { IsOf books.now first.new × IsOf books.now second.new }
    ensures holds { IsHolding first.new one.new × IsHolding second.new two.new }
    ensures one { (length one.new.items ≡ 1) × (length two.new.items ≡ 1) }
    ensures number { second.new.number ≡ second.old.number }
    ensures endings { KeepsEndings first.old first.new × KeepsEndings second.old second.new }
{
    let front = span(rt, 0, 1);
    let back = span(rt, 1, 2);
    let word = glance(books, first, PlaceNo(0), 0);
    assert!(rt; word == 0);
    let other = try_on(rt, books, second, two, back, 0);
    assert!(rt; other == Take::Won);
    let missed = try_on(rt, books, first, one, front, 0);
    assert!(rt; missed == Take::Moving { shown: 2 });
    let again = try_on(rt, books, first, one, front, 2);
    assert!(rt; again == Take::Won);
    assert!(rt; one.items().len() == 1);
    assert!(rt; two.items().len() == 1);
}

// Gives the one item of a hold back, and keeps the row.
fn undo_and_keep(books: &Books, desk: &mut Desk, mut hold: Hold)
    requires own { IsOf books.now desk.old }
    requires hold { IsHolding desk.old hold }
    requires one { length hold.items ≡ 1 }
    ensures own { IsOf books.now desk.new }
    ensures none { HoldsNone desk.new }
    ensures number { desk.new.number ≡ desk.old.number }
    ensures endings { KeepsEndings desk.old desk.new }
{
    undo_last(books, desk, &mut hold);
    keep_row(desk, hold);
}

// A hold on the first free row.
pub(crate) fn start(rt: &impl Abort, books: &Books, desk: &mut Desk) -> Hold
    requires own { IsOf books.now desk.old }
    requires none { HoldsNone desk.old }
    ensures own { IsOf books.now desk.new }
    ensures hold { IsHolding desk.new result }
    ensures none { result.items ≡ [] }
    ensures number { desk.new.number ≡ desk.old.number }
    ensures endings { KeepsEndings desk.old desk.new }
{
    start_hold(books, desk).expect(rt, "a row")
}

/// A try on a word that moved on names the word found, and the next try on that word is won. What is undone leaves no
/// leg taken, and the rows stay in the making.
#[test]
fn undone_beside_another_desk(rt: HostRuntime) -> Result<(), Fail> {
    let (books, mut first, mut second) = two_desks(rt.alloc())?;
    let mut one = start(&rt, &books, &mut first);
    let mut two = start(&rt, &books, &mut second);
    contend(&rt, &books, &mut first, &mut one, &mut second, &mut two);
    undo_and_keep(&books, &mut first, one);
    undo_and_keep(&books, &mut second, two);
    books.meet(&mut first, second);
    let wall = books.finish(first);
    assert!(rt; wall.place_word(PlaceNo(0), 0) == Some(0));
    assert!(rt; wall.place_word(PlaceNo(1), 0) == Some(0));
    assert!(rt; wall.row_word(0, 0) == Some(1));
    assert!(rt; wall.row_word(1, 0) == Some(1));
    Ok(())
}

/// Two desks hold legs of one place, and both seal. After they met, the first sees the second's booking.
#[test]
fn two_desks_on_one_place(rt: HostRuntime) -> Result<(), Fail> {
    let (books, mut first, mut second) = two_desks(rt.alloc())?;
    let mut one = start(&rt, &books, &mut first);
    let mut two = start(&rt, &books, &mut second);
    contend(&rt, &books, &mut first, &mut one, &mut second, &mut two);
    let limit = moment(&rt, 900);
    close_hold(&books, &mut first, one, limit);
    let row = close_hold(&books, &mut second, two, limit);
    books.meet(&mut first, second);
    let Some(view) = look_row(&books, &mut first, row) else {
        panic!(rt; "the other booking is sealed");
    };
    assert!(rt; (view.phase, view.retailer, view.total) == (Phase::Prebooked, RETAILER, 1900));
    assert!(rt; (view.limit.seconds(), view.ended) == (900, None));
    assert!(rt; view.items.len() == 1);
    let item = view.items[0];
    assert!(rt; (item.place(), item.span().from(), item.span().to()) == (0, 1, 2));
    let wall = books.finish(first);
    assert!(rt; wall.place_word(PlaceNo(0), 0) == Some(3));
    assert!(rt; wall.row_word(0, 0) == Some(2));
    assert!(rt; wall.row_word(1, 0) == Some(2));
    Ok(())
}
