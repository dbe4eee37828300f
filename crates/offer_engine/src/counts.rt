ghost use Rattle.std.specs.Prelude.{◌≡◌, ◌≤◌, ◌<◌, ◌+◌, ◌*◌, length, All, IfSome};
ghost use Rattle.std.specs.List.{filter};
ghost use Rattle.claim_rule.specs.Desks.{IsOf};
ghost use Rattle.claim_rule.specs.Calls.{AddsStepsBy};
ghost use Rattle.claim_rule.specs.Out.{KeepsHolds, KeepsEndings, IsTidy};
ghost use Rattle.place_map.specs.ByClass.{has_traits};
ghost use Rattle.place_map.specs.Candidates.{AreRising};
ghost use Rattle.catalogue_contents.specs.Contents.{legs_in};
ghost use Rattle.availability.specs.Looks.{CountsFree, row_from};
ghost use Rattle.offer_engine.specs.Offers.{CountsSegment, CountsSegments};

use crate::wish::OfferWish;
use arrayvec::ArrayVec;
use availability::{free_in_row, free_places};
use catalogue_contents::Catalogue;
use claim_rule::{Books, Desk};
use leg_masks::Span;
use offer_codes::Segment;
use place_map::Place;
use rail_ids::PlaceNo;

/// How many of each segment's wanted places are free on it, by a look at each piece of each place. Takes no memory.
pub(crate) fn count_segments(
    cat: &Catalogue,
    books: &Books,
    desk: &mut Desk,
    wish: &OfferWish,
    segments: &[Segment],
) -> ArrayVec<u32, 3>
    requires own { IsOf books.now desk.old }
    requires legs { books.now.layout.legs ≡ legs_in cat.now }
    requires few { length segments.now ≤ 3 }
    ensures own { IsOf books.now desk.new }
    ensures entries { AddsStepsBy (CountsSegments cat.now wish.now segments.now result.items) desk.old desk.new }
    ensures holds { KeepsHolds desk.old desk.new }
    ensures endings { KeepsEndings desk.old desk.new }
    ensures tidy { IsTidy desk.old → IsTidy desk.new }
{
    let mut free = ArrayVec::new();
    for segment in segments {
        free.push(count_segment(cat, books, desk, wish, segment));
    }
    free
}

// How many of the segment's wanted places are free on it: of the class's places, where no trait is wanted.
fn count_segment(
    cat: &Catalogue,
    books: &Books,
    desk: &mut Desk,
    wish: &OfferWish,
    segment: &Segment,
) -> u32
    requires own { IsOf books.now desk.old }
    requires legs { books.now.layout.legs ≡ legs_in cat.now }
    ensures own { IsOf books.now desk.new }
    ensures entries { AddsStepsBy (CountsSegment cat.now wish.now segment.now result) desk.old desk.new }
    ensures holds { KeepsHolds desk.old desk.new }
    ensures endings { KeepsEndings desk.old desk.new }
    ensures tidy { IsTidy desk.old → IsTidy desk.new }
{
    let map = cat.places();
    let places = map.all();
    let numbers = map.class_places(segment.run, wish.class);
    if wish.wanted == 0 {
        return count_all(books, desk, numbers, segment.span);
    }
    count_with_traits(books, desk, places, numbers, wish.wanted, segment.span)
}

// How many of these places are free on the span. Where they stand in a row, as those of most runs do, their list isn't
// read.
fn count_all(books: &Books, desk: &mut Desk, numbers: &[PlaceNo], span: Span) -> u32
    requires own { IsOf books.now desk.old }
    requires rising { AreRising 0 numbers.now }
    requires places { All (λ n. n.0 < length books.now.layout.legs) numbers.now }
    requires few { length numbers.now < 4_294_967_296 }
    ensures own { IsOf books.now desk.new }
    ensures entries { AddsStepsBy (CountsFree numbers.now span result) desk.old desk.new }
    ensures holds { KeepsHolds desk.old desk.new }
    ensures endings { KeepsEndings desk.old desk.new }
    ensures tidy { IsTidy desk.old → IsTidy desk.new }
{
    match first_in_row(numbers) {
        Some(first) => free_in_row(books, desk, first, numbers.len() as u32, span),
        None => free_places(books, desk, numbers, span),
    }
}

// The first of these numbers, where each next one is one more.
fn first_in_row(numbers: &[PlaceNo]) -> Option<PlaceNo>
    requires rising { AreRising 0 numbers.now }
    ensures row { IfSome result (λ first. numbers.now ≡ row_from first.0 (length numbers.now)) }
    ensures some { IfSome result (λ _. 0 < length numbers.now) }
{
    if numbers.is_empty() {
        return None;
    }
    let first = numbers[0];
    let last = numbers[numbers.len() - 1];
    if last.0 as usize == first.0 as usize + (numbers.len() - 1) {
        Some(first)
    } else {
        None
    }
}

// How many of these places that have all wanted traits are free on the span.
fn count_with_traits(
    books: &Books,
    desk: &mut Desk,
    places: &[Place],
    numbers: &[PlaceNo],
    wanted: u8,
    span: Span,
) -> u32
    requires own { IsOf books.now desk.old }
    requires numbers { All (λ n. n.0 < length places.now) numbers.now }
    requires legs { length places.now ≤ length books.now.layout.legs }
    requires few { length numbers.now < 4_294_967_296 }
    ensures own { IsOf books.now desk.new }
    ensures entries { let wanted_of = filter (has_traits wanted places.now) numbers.now in
        AddsStepsBy (CountsFree wanted_of span result) desk.old desk.new }
    ensures holds { KeepsHolds desk.old desk.new }
    ensures endings { KeepsEndings desk.old desk.new }
    ensures tidy { IsTidy desk.old → IsTidy desk.new }
{
    let mut free = 0;
    for number in numbers {
        if places[number.0 as usize].traits & wanted == wanted {
            free += free_places(books, desk, [*number].as_slice(), span);
        }
    }
    free
}
