// One run in words: its places, its booking rows, and the one desk at them.
ghost use Rattle.std.specs.Prelude.{◌≡◌, ◌<◌, ◌≤◌, ℕ, [], All, IfOk, length, map, slice_index_or};
ghost use Rattle.std.specs.List.{range_with_len};
ghost use Rattle.leg_masks.specs.Interval.{PlacedSpan as Item};
ghost use Rattle.claim_rule.specs.Rule.{most_place_legs};
ghost use Rattle.claim_rule.specs.Desks.{IsOf, AddsSteps};
ghost use Rattle.claim_rule.specs.Out.{IsHolding, HasNotedItems, HoldsNone};
ghost use Rattle.hold_core.specs.Tries.{place_number};
ghost use Rattle.host_tiny.specs.Run.{IsRun, Reserves, reserved, notes_and_seal};

use booking_rows::{Detail, Sealed, note_detail, seal, start_hold};
use claim_rule::{Books, Desk, Hold, start_books};
use hold_core::{Added, abandon, add_places};
use leg_masks::Span;
use rail_ids::{PlaceNo, RetailerNo};
use rail_time::Moment;
use std::alloc::{AllocError, Global};
use std::marker::Model;

/// The booking rows: the most reservations.
const ROWS: u32 = 1_024;

/// What a wish for a place comes to.
#[derive(Clone, Copy, PartialEq, Eq)]
pub enum Reservation {
    /// The place is reserved on the legs.
    Place(u16),
    /// 1,024 reservations are held.
    RowsFull,
    /// No place is free on the legs.
    NoPlace,
}

/// One run with its reservations, which stand in the words alone. Contracts see its legs, how many places it has, and
/// what is reserved.
#[derive(Drop)]
pub struct Run {
    legs: u8,
    books: Books,
    desk: Desk,
    // All places, in rising number.
    places: Vec<PlaceNo>,
}

impl Model for Run {
    ghost use Rattle.std.specs.Prelude.{length};
    ghost use Rattle.host_tiny.specs.Run.{IsRun, RunView, reserved};

    ghost Value = { RunView };

    ghost view = { λ r. record { legs = r.legs; places = length r.places.items; held = reserved r.desk } };

    ghost invariant = { λ r. IsRun r.legs r.places.items r.books r.desk };
}

/// The numbers of this many places, from 0 on.
fn place_numbers(alloc: Global, count: u16) -> Result<Vec<PlaceNo>, AllocError>
    ensures { IfOk result (λ places. map place_number places.items ≡ range_with_len 0 count) }
{
    let mut places = Vec::with_capacity(alloc, usize::from(count))?;
    for number in 0..count {
        places.push(PlaceNo(u32::from(number)))?;
    }
    Ok(places)
}

/// The place of a hold's first item.
fn first_place(hold: &Hold) -> u16
    requires some { 0 < length hold.now.items }
    requires small { All (λ i. i.place < 65536) hold.now.items }
    ensures { (other : Item) → result ≡ (slice_index_or hold.now.items 0 other).place }
{
    hold.items()[0].place() as u16
}

/// The limit of confirmation of a booking that has none.
fn no_limit() -> Moment
    ensures { result ≡ 0 }
{
    match Moment::of(0) {
        Some(limit) => limit,
        None => unreachable!(),
    }
}

/// Notes a booking of the first retailer, without limit and total, and seals it.
fn seal_booking(books: &Books, desk: &mut Desk, mut hold: Hold)
    requires own { IsOf books.now desk.old }
    requires hold { IsHolding desk.old hold }
    requires noted { HasNotedItems desk.old hold }
    requires some { 1 ≤ length hold.items }
    ensures own { IsOf books.now desk.new }
    ensures entries { (retailer limit total : ℕ) × AddsSteps desk.old desk.new
        (notes_and_seal hold.row.row retailer limit total (length hold.items)) }
    ensures none { HoldsNone desk.new }
{
    let detail = Detail {
        retailer: RetailerNo(1),
        limit: no_limit(),
        total: 0,
    };
    note_detail(books, desk, &mut hold, detail);
    let _row = seal(books, desk, hold, Sealed::Prebooked);
}

/// Reserves the least of these places that is free on the legs of the span.
fn reserve_one(books: &Books, desk: &mut Desk, places: &[PlaceNo], span: Span) -> Reservation
    requires run { (legs : ℕ) × IsRun legs places.now books.now desk.old × (span.to ≤ legs) }
    ensures run { (legs : ℕ) → IsRun legs places.now books.now desk.old → IsRun legs places.now books.now desk.new }
    ensures reserves { Reserves (length places.now) (reserved desk.old) span result (reserved desk.new) }
{
    let Some(mut hold) = start_hold(books, desk) else {
        return Reservation::RowsFull;
    };
    match add_places(books, desk, &mut hold, places, span, 1) {
        Added::All => {
            let place = first_place(&hold);
            seal_booking(books, desk, hold);
            Reservation::Place(place)
        }
        Added::NoPlace { won: _ } => {
            abandon(books, desk, hold);
            Reservation::NoPlace
        }
        Added::Contended { place: _ } => unreachable!(),
    }
}

impl Run {
    /// Takes the memory of the words. Nothing is reserved yet.
    pub fn start(alloc: Global, legs: u8, places: u16) -> Result<Self, AllocError>
        requires some { 0 < legs }
        requires few { legs ≤ most_place_legs }
        requires places { 0 < places }
        requires most { places ≤ 1200 }
        ensures run { IfOk result (λ run. run ≡ record { legs = legs; places = places; held = [] }) }
    {
        let numbers = place_numbers(alloc, places)?;
        let lengths = vec![in alloc; legs; usize::from(places)]?;
        let (books, desk) = start_books(alloc, lengths.as_slice(), ROWS)?;
        Ok(Run {
            legs,
            books,
            desk,
            places: numbers,
        })
    }

    /// How many legs it has: 1 to 126.
    pub fn legs(&self) -> u8
        ensures value { result ≡ self.now.legs }
        ensures some { 0 < result }
        ensures few { result ≤ most_place_legs }
    {
        let _ = &self.desk;
        self.legs
    }

    /// Reserves the least place that is free on the legs of the span.
    pub fn reserve(&mut self, span: Span) -> Reservation
        requires { span.to ≤ self.old.legs }
        ensures reserves { Reserves self.old.places self.old.held span result self.new.held }
        ensures legs { self.new.legs ≡ self.old.legs }
        ensures places { self.new.places ≡ self.old.places }
    {
        reserve_one(&self.books, &mut self.desk, self.places.as_slice(), span)
    }
}
