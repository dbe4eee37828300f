ghost use Rattle.std.specs.Prelude.{◌≡◌, ◌<◌, ◌≤◌, ◌+◌, ◌-◌, ◌*◌, ◌&&◌, All, length, cond, IfOk, IfSome, OnOk, OnErr};
ghost use Rattle.leg_masks.specs.Interval.{IsPiece, most_places, pieces as pieces_of};
ghost use Rattle.claim_rule.specs.Desks.{IsOf};
ghost use Rattle.claim_rule.specs.Calls.{AddsStepsBy};
ghost use Rattle.claim_rule.specs.Out.{KeepsHolds, KeepsEndings, IsTidy};
ghost use Rattle.availability.specs.Looks.{LooksAt, CountsFree, HasLooked, HasLookedAt, listed, row_from};

use claim_rule::{Books, Desk};
use leg_masks::{Span, free_on, half_of, pieces};
use rail_ids::PlaceNo;
use seat_words::glance;
use std::alloc::{AllocError, Global};
use std::marker::Model;

/// How many of the places were free on all legs of the span, by one look at each piece of the span at each place in
/// order, half 0 first. Takes no memory.
///
/// Each place is one of the books, and there are fewer than 4,294,967,296.
#[inline(never)]
pub fn free_places(books: &Books, desk: &mut Desk, places: &[PlaceNo], span: Span) -> u32
    requires own { IsOf books.now desk.old }
    requires places { All (λ p. p.0 < length books.now.layout.legs) places.now }
    requires few { length places.now < 4_294_967_296 }
    ensures own { IsOf books.now desk.new }
    ensures entries { AddsStepsBy (CountsFree places.now span result) desk.old desk.new }
    ensures holds { KeepsHolds desk.old desk.new }
    ensures endings { KeepsEndings desk.old desk.new }
    ensures tidy { IsTidy desk.old → IsTidy desk.new }
{
    let (first, second) = parts_of(span);
    let mut free = 0;
    for place in places {
        if look_free(books, desk, *place, span, first, &second) {
            free += 1;
        }
    }
    free
}

/// As `free_places`, for that many places from the first one up: no list of them is read.
///
/// Each place is one of the books.
#[inline(never)]
pub fn free_in_row(books: &Books, desk: &mut Desk, first: PlaceNo, count: u32, span: Span) -> u32
    requires own { IsOf books.now desk.old }
    requires places { first.0 + count ≤ length books.now.layout.legs }
    ensures own { IsOf books.now desk.new }
    ensures entries { AddsStepsBy (CountsFree (row_from first.0 count) span result) desk.old desk.new }
    ensures holds { KeepsHolds desk.old desk.new }
    ensures endings { KeepsEndings desk.old desk.new }
    ensures tidy { IsTidy desk.old → IsTidy desk.new }
{
    let _most = books.places();
    let parts = Parts::of(span);
    if parts.second.is_some() {
        return free_one_by_one(books, desk, first.0, count, &parts);
    }
    free_by_fours(books, desk, first.0, count, &parts)
}

/// Whether each of the places was free on all legs of the span, by one look at each piece of the span at each place in
/// order, half 0 first. The memory is taken before the first look: where there is none, the desk has made no step.
///
/// Each place is one of the books.
pub fn place_states(
    alloc: Global,
    books: &Books,
    desk: &mut Desk,
    places: &[PlaceNo],
    span: Span,
) -> Result<Vec<bool>, AllocError>
    requires own { IsOf books.now desk.old }
    requires places { All (λ p. p.0 < length books.now.layout.legs) places.now }
    ensures own { IsOf books.now desk.new }
    ensures entries { IfOk result (λ v. AddsStepsBy (LooksAt places.now span v.items) desk.old desk.new) }
    ensures untouched { OnErr result (desk.new ≡ desk.old) }
    ensures holds { KeepsHolds desk.old desk.new }
    ensures endings { KeepsEndings desk.old desk.new }
    ensures tidy { IsTidy desk.old → IsTidy desk.new }
{
    let mut states = Vec::with_capacity(alloc, places.len())?;
    let (first, second) = parts_of(span);
    for place in places {
        let is_free = look_free(books, desk, *place, span, first, &second);
        let Ok(()) = states.push(is_free) else {
            unreachable!()
        };
    }
    Ok(states)
}

// The pieces of a span: the first, and the other where there are two.
fn parts_of(span: Span) -> (Span, Option<Span>)
    ensures parts { pieces_of span ≡ listed result.0 result.1 }
    ensures first { IsPiece result.0 }
    ensures second { IfSome result.1 IsPiece }
{
    let parts = pieces(span);
    let first = parts[0];
    if parts.len() == 1 {
        return (first, None);
    }
    (first, Some(parts[1]))
}

// A span with its pieces: the first, and the other where there are two.
#[derive(Drop)]
struct Parts {
    span: Span,
    first: Span,
    second: Option<Span>,
}

impl Model for Parts {
    ghost use Rattle.std.specs.Prelude.{◌≡◌, IfSome};
    ghost use Rattle.leg_masks.specs.Interval.{Interval, IsPiece, pieces};
    ghost use Rattle.availability.specs.Looks.{listed};

    ghost Value = { Interval };

    ghost view = { λ p. p.span };

    ghost invariant = { λ p. (pieces p.span ≡ listed p.first p.second) × IsPiece p.first × IfSome p.second IsPiece };
}

impl Parts {
    fn of(span: Span) -> Parts
        ensures { result ≡ span }
    {
        let (first, second) = parts_of(span);
        Parts {
            span,
            first,
            second,
        }
    }
}

// How many of that many places from the first one up are free. Inlined, since through a reference the parts would be
// loaded again at each look.
#[inline(always)]
fn free_one_by_one(books: &Books, desk: &mut Desk, first: u32, count: u32, parts: &Parts) -> u32
    requires own { IsOf books.now desk.old }
    requires places { first + count ≤ length books.now.layout.legs }
    requires small { first + count ≤ most_places }
    ensures own { IsOf books.now desk.new }
    ensures entries { AddsStepsBy (CountsFree (row_from first count) parts.now result) desk.old desk.new }
    ensures few { result ≤ count }
    ensures holds { KeepsHolds desk.old desk.new }
    ensures endings { KeepsEndings desk.old desk.new }
{
    let mut free = 0;
    for n in 0..count {
        free += look_at_one(books, desk, first + n, parts);
    }
    free
}

// The same, but from one multiple of four to another four places are looked at in each turn. There no place's number
// needs to be worked out again at its look, since none of them can be past the greatest one.
#[inline(always)]
fn free_by_fours(books: &Books, desk: &mut Desk, first: u32, count: u32, parts: &Parts) -> u32
    requires own { IsOf books.now desk.old }
    requires places { first + count ≤ length books.now.layout.legs }
    requires small { first + count ≤ most_places }
    ensures own { IsOf books.now desk.new }
    ensures entries { AddsStepsBy (CountsFree (row_from first count) parts.now result) desk.old desk.new }
    ensures holds { KeepsHolds desk.old desk.new }
    ensures endings { KeepsEndings desk.old desk.new }
{
    let end = first + count;
    let from = (first + 3) / 4;
    let to = end / 4;
    if to <= from {
        return free_one_by_one(books, desk, first, count, parts);
    }
    let before = free_one_by_one(books, desk, first, 4 * from - first, parts);
    let between = free_fours(books, desk, from, to, parts);
    let behind = free_one_by_one(books, desk, 4 * to, end - 4 * to, parts);
    before + between + behind
}

// How many are free of the places from four times the first number up to four times the other.
#[inline(always)]
fn free_fours(books: &Books, desk: &mut Desk, from: u32, to: u32, parts: &Parts) -> u32
    requires own { IsOf books.now desk.old }
    requires ordered { from ≤ to }
    requires places { 4 * to ≤ length books.now.layout.legs }
    requires small { 4 * to ≤ most_places }
    ensures own { IsOf books.now desk.new }
    ensures entries { AddsStepsBy (CountsFree (row_from (4 * from) (4 * (to - from))) parts.now result) desk.old
        desk.new }
    ensures few { result ≤ 4 * (to - from) }
    ensures holds { KeepsHolds desk.old desk.new }
    ensures endings { KeepsEndings desk.old desk.new }
{
    let mut free = 0;
    for four in from..to {
        free += look_at_four(books, desk, four, parts);
    }
    free
}

// How many of the four places from four times this number up are free.
#[inline(always)]
fn look_at_four(books: &Books, desk: &mut Desk, four: u32, parts: &Parts) -> u32
    requires own { IsOf books.now desk.old }
    requires places { 4 * four + 4 ≤ length books.now.layout.legs }
    requires small { 4 * four + 4 ≤ most_places }
    ensures own { IsOf books.now desk.new }
    ensures entries { AddsStepsBy (CountsFree (row_from (4 * four) 4) parts.now result) desk.old desk.new }
    ensures few { result ≤ 4 }
    ensures holds { KeepsHolds desk.old desk.new }
    ensures endings { KeepsEndings desk.old desk.new }
{
    let first = look_at_two(books, desk, 4 * four, parts);
    let second = look_at_two(books, desk, 4 * four + 2, parts);
    first + second
}

// How many of this place and the next one are free.
#[inline(always)]
fn look_at_two(books: &Books, desk: &mut Desk, place: u32, parts: &Parts) -> u32
    requires own { IsOf books.now desk.old }
    requires places { place + 2 ≤ length books.now.layout.legs }
    requires small { place + 2 ≤ most_places }
    ensures own { IsOf books.now desk.new }
    ensures entries { AddsStepsBy (CountsFree (row_from place 2) parts.now result) desk.old desk.new }
    ensures few { result ≤ 2 }
    ensures holds { KeepsHolds desk.old desk.new }
    ensures endings { KeepsEndings desk.old desk.new }
{
    let first = look_at_one(books, desk, place, parts);
    let second = look_at_one(books, desk, place + 1, parts);
    first + second
}

// 1 where the place is free, else 0.
#[inline(always)]
fn look_at_one(books: &Books, desk: &mut Desk, place: u32, parts: &Parts) -> u32
    requires own { IsOf books.now desk.old }
    requires places { place + 1 ≤ length books.now.layout.legs }
    ensures own { IsOf books.now desk.new }
    ensures entries { AddsStepsBy (CountsFree (row_from place 1) parts.now result) desk.old desk.new }
    ensures few { result ≤ 1 }
    ensures holds { KeepsHolds desk.old desk.new }
    ensures endings { KeepsEndings desk.old desk.new }
{
    let place = PlaceNo(place);
    u32::from(look_free(books, desk, place, parts.span, parts.first, &parts.second))
}

// The looks at a place, one for each piece of the span, and whether it was free on all of them.
#[inline(always)]
fn look_free(
    books: &Books,
    desk: &mut Desk,
    place: PlaceNo,
    _span: Span,
    first: Span,
    second: &Option<Span>,
) -> bool
    requires own { IsOf books.now desk.old }
    requires place { place.0 < length books.now.layout.legs }
    requires parts { pieces_of _span ≡ listed first second.now }
    requires first { IsPiece first }
    requires second { IfSome second.now IsPiece }
    ensures own { IsOf books.now desk.new }
    ensures entries { HasLooked place _span result desk.old desk.new }
    ensures holds { KeepsHolds desk.old desk.new }
    ensures endings { KeepsEndings desk.old desk.new }
{
    let is_free = look_piece(books, desk, place, first);
    match second {
        None => is_free,
        Some(second) => {
            let is_too = look_piece(books, desk, place, *second);
            both(is_free, is_too)
        }
    }
}

// Whether both are so.
fn both(one: bool, other: bool) -> bool
    ensures both { result ≡ (one && other) }
{
    one && other
}

// One look at a piece of a place, and whether it was free there.
#[inline(always)]
fn look_piece(books: &Books, desk: &mut Desk, place: PlaceNo, piece: Span) -> bool
    requires own { IsOf books.now desk.old }
    requires place { place.0 < length books.now.layout.legs }
    requires piece { IsPiece piece }
    ensures own { IsOf books.now desk.new }
    ensures entries { HasLookedAt place piece result desk.old desk.new }
    ensures holds { KeepsHolds desk.old desk.new }
    ensures endings { KeepsEndings desk.old desk.new }
{
    free_on(glance(books, desk, place, half_of(piece)), piece)
}
