ghost use Rattle.std.specs.Prelude.{filter, ◌≡◌, ◌≤◌, ◌<◌, ◌==◌, ◌+◌, ◌++◌, ◌||◌, [], List, IfOk, OnOk, OnErr, IfErr, Ok, None, length, min, sum_by, slice_get, All, true, false, nat_lt, nat_le};
ghost use Rattle.std.specs.List.{AllByRecursion};
ghost use Rattle.place_map.specs.Places.{places_of as places_of_run, coach_places, group_places, group_size, has_place, AreOfOthers, AreRisingFrom, first_repeat as first_repeat_of, with_places, run_number, EndsWithRun, AreByRun, IsSplit};
ghost use Rattle.place_map.specs.Candidates.{candidates_of, class_places_of, IsOfRun, AreRising};
ghost use Rattle.place_map.specs.ByClass.{AreByClass, has_traits};

use crate::class_numbers::{ClassNumbers, numbers_between};
use crate::coach::{Class, Coach, Group, Place, PlaceFault};
use crate::marks::{Mark, Marks, Sizes};
use rail_ids::{PlaceNo, RunNo};
use std::alloc::{AllocError, Global};
use std::marker::Model;

const MOST_IN_RUN: usize = 1200;

const MOST_PLACES: usize = 4_194_304;

/// The places of all runs. Contracts see the list of them.
#[derive(Drop)]
pub struct PlaceMap {
    places: Vec<Place>,
    by_class: ClassNumbers,
    marks: Marks,
}

impl Model for PlaceMap {
    ghost use Rattle.std.specs.Prelude.{◌≤◌, List, length};
    ghost use Rattle.place_map.specs.declared.coach.Place.{Place};
    ghost use Rattle.place_map.specs.Places.{AreByRun};
    ghost use Rattle.place_map.specs.ByClass.{AreByClass};

    ghost Value = { List Place };

    ghost view = { λ m. m.places.items };

    ghost invariant = { λ m. (length m.places.items ≤ 4_194_304) × AreByRun m.places.items
        × AreByClass m.places.items m.by_class };
}

impl PlaceMap {
    /// No places.
    pub fn new(alloc: Global) -> PlaceMap
        ensures empty { result ≡ [] }
    {
        PlaceMap {
            places: Vec::new(alloc),
            by_class: ClassNumbers::new(alloc),
            marks: Marks::new(alloc),
        }
    }

    /// Adds the places of a coach of this run, group by group, or gives the first fault in the order of `PlaceFault`.
    /// After a fault the map is as before.
    pub fn add_coach(&mut self, run: RunNo, coach: &Coach) -> Result<(), PlaceFault>
        requires no_later_run { EndsWithRun run.0 self.old }
        ensures added { OnOk result (with_places run.0 self.old
            (coach_places run.0 coach.now.number coach.now.class coach.now.groups.items) ≡ Ok self.new) }
        ensures no_later_run { OnOk result (EndsWithRun run.0 self.new) }
        ensures fault { IfErr result (λ e. ¬ (e ≡ PlaceFault.NoMemory) → with_places run.0 self.old
            (coach_places run.0 coach.now.number coach.now.class coach.now.groups.items) ≡ Err e) }
        ensures grown { OnOk result (length self.old + length coach.now.groups.items ≤ length self.new) }
        ensures unchanged { OnErr result (self.new ≡ self.old) }
    {
        let alloc = *self.places.allocator();
        let fresh = fresh_places(alloc, self.places.as_slice(), run, coach)?;
        let first = self.places.len();
        let start = sizes_of(self.places.as_slice(), &self.by_class);
        let Ok(_room) = self.places.reserve(fresh.len()) else {
            return Err(PlaceFault::NoMemory);
        };
        let Ok(_numbered) = self.by_class.add(coach.class, first, fresh.len()) else {
            return Err(PlaceFault::NoMemory);
        };
        match self.places.extend_from_slice(fresh.as_slice()) {
            Ok(()) => {
                let end = sizes_of(self.places.as_slice(), &self.by_class);
                self.marks.note(run, start, end);
                Ok(())
            }
            Err(_) => Err(PlaceFault::NoMemory),
        }
    }

    /// The place of a number: `None` exactly where no place has it.
    pub fn place(&self, place: PlaceNo) -> Option<Place>
        ensures value { result ≡ slice_get self.now place.0 }
    {
        self.places.get(place.0 as usize).copied()
    }

    /// All places, in the order of their numbers.
    pub fn all(&self) -> &[Place]
        ensures places { result.now ≡ self.now }
        ensures most { length result.now ≤ 4_194_304 }
    {
        self.places.as_slice()
    }

    /// The places of the run, in the order of their numbers. They stand where the run's mark says, which two looks
    /// at each end show; else they are found by two binary searches.
    pub fn of_run(&self, run: RunNo) -> &[Place]
        ensures { result.now ≡ places_of_run run.0 self.now }
    {
        own_places(self.places.as_slice(), run, self.marks.of(run))
    }

    /// How many places there are.
    pub fn count(&self) -> u32
        ensures count { result ≡ length self.now }
        ensures most { result ≤ 4_194_304 }
    {
        self.places.len() as u32
    }

    /// The places of the run and the class that have all wanted traits, in rising number. Only the run's places of that
    /// class are tried.
    pub fn candidates(
        &self,
        alloc: Global,
        run: RunNo,
        class: Class,
        wanted: u8,
    ) -> Result<Vec<PlaceNo>, AllocError>
        ensures candidates { IfOk result (λ v. v.items ≡ candidates_of run.0 class wanted self.now) }
        ensures of_run { IfOk result (λ v. AllByRecursion (IsOfRun run.0 self.now) v.items) }
        ensures rising { IfOk result (λ v. AreRising 0 v.items) }
    {
        let numbers = self.class_places(run, class);
        with_traits(alloc, self.places.as_slice(), numbers, wanted)
    }

    /// The places of the run and the class, in rising number. No memory is taken. They stand where the run's mark says,
    /// which two looks at each end show; else they are found by four binary searches.
    pub fn class_places(&self, run: RunNo, class: Class) -> &[PlaceNo]
        ensures places { result.now ≡ class_places_of run.0 class self.now }
        ensures untraited { result.now ≡ candidates_of run.0 class 0 self.now }
        ensures of_run { AllByRecursion (IsOfRun run.0 self.now) result.now }
        ensures rising { AreRising 0 result.now }
    {
        let places = self.places.as_slice();
        let mark = self.marks.of(run);
        let first = first_of_run(places, run, mark.start.places);
        let size = mark.end.places.saturating_sub(first);
        let end = first + end_of_run(&places[first..], run, size);
        let (from, to) = mark.of_class(class);
        numbers_between(self.by_class.of(class), first, end, from, to)
    }
}

fn sizes_of(places: &[Place], by_class: &ClassNumbers) -> Sizes {
    Sizes {
        places: places.len(),
        first: by_class.of(Class::First).len(),
        second: by_class.of(Class::Second).len(),
    }
}

// The places that a coach adds to these, if it may.
fn fresh_places(
    alloc: Global,
    places: &[Place],
    run: RunNo,
    coach: &Coach,
) -> Result<Vec<Place>, PlaceFault>
    requires by_run { AreByRun places.now }
    requires no_later_run { EndsWithRun run.0 places.now }
    requires few { length places.now ≤ 4_194_304 }
    ensures fresh { IfOk result (λ v. v.items
        ≡ coach_places run.0 coach.now.number coach.now.class coach.now.groups.items) }
    ensures few { IfOk result (λ v. length places.now + length v.items ≤ 4_194_304) }
    ensures some { IfOk result (λ v. length coach.now.groups.items ≤ length v.items) }
    ensures added { IfOk result (λ v. with_places run.0 places.now
        (coach_places run.0 coach.now.number coach.now.class coach.now.groups.items) ≡ Ok (places.now ++ v.items)) }
    ensures fault { IfErr result (λ e. ¬ (e ≡ PlaceFault.NoMemory) → with_places run.0 places.now
        (coach_places run.0 coach.now.number coach.now.class coach.now.groups.items) ≡ Err e) }
{
    let others = &places[first_of_run(places, run, places.len())..];
    let more = size_of_groups(coach.groups.as_slice());
    if are_too_many(others.len(), places.len(), more) {
        return Err(PlaceFault::TooManyPlaces);
    }
    let Ok(fresh) = places_of(alloc, run, coach) else {
        return Err(PlaceFault::NoMemory);
    };
    match first_repeat(others, fresh.as_slice()) {
        Some(place) => Err(PlaceFault::DoublePlace {
            coach: place.coach,
            number: place.number,
        }),
        None => Ok(fresh),
    }
}

fn are_too_many(in_run: usize, in_all: usize, more: usize) -> bool
    requires in_run { in_run ≤ 4_194_304 }
    requires in_all { in_all ≤ 4_194_304 }
    requires more { more ≤ 4_194_305 }
    ensures { result ≡ (nat_lt 1200 (in_run + more) || nat_lt 4_194_304 (in_all + more)) }
{
    in_run + more > MOST_IN_RUN || in_all + more > MOST_PLACES
}

// The places of the run among these.
fn own_places(places: &[Place], run: RunNo, mark: Mark) -> &[Place]
    requires by_run { AreByRun places.now }
    ensures { result.now ≡ places_of_run run.0 places.now }
{
    let first = first_of_run(places, run, mark.start.places);
    let size = mark.end.places.saturating_sub(first);
    let rest = &places[first..];
    &rest[..end_of_run(rest, run, size)]
}

// The numbers among these whose places have all wanted traits.
fn with_traits(
    alloc: Global,
    places: &[Place],
    numbers: &[PlaceNo],
    wanted: u8,
) -> Result<Vec<PlaceNo>, AllocError>
    requires { All (λ n. n.0 < length places.now) numbers.now }
    ensures { IfOk result (λ v. v.items ≡ filter (has_traits wanted places.now) numbers.now) }
{
    let mut found = Vec::with_capacity(alloc, numbers.len())?;
    for number in numbers {
        if places[number.0 as usize].traits & wanted == wanted {
            found.push_reserved(*number);
        }
    }
    Ok(found)
}

// The places before this one are of earlier runs, and the others are not. It is the guess, where that is right.
fn first_of_run(places: &[Place], run: RunNo, guess: usize) -> usize
    requires by_run { AreByRun places.now }
    ensures within { result ≤ length places.now }
    ensures splits { IsSplit (λ p. nat_lt (run_number p) run.0) places.now result }
{
    if is_first_of_run(places, run, guess) {
        return guess;
    }
    places.partition_point(|p| p.run.0 < run.0)
}

// Whether the places before this one are of earlier runs, and the others are not, by a look at its two neighbours.
fn is_first_of_run(places: &[Place], run: RunNo, at: usize) -> bool
    requires by_run { AreByRun places.now }
    ensures within { result ≡ true → at ≤ length places.now }
    ensures splits { result ≡ true → IsSplit (λ p. nat_lt (run_number p) run.0) places.now at }
{
    if at > places.len() {
        return false;
    }
    if at > 0 && places[at - 1].run.0 >= run.0 {
        return false;
    }
    at == places.len() || places[at].run.0 >= run.0
}

// The places from this one on are of later runs, and the others are not. It is the guess, where that is right.
fn end_of_run(places: &[Place], run: RunNo, guess: usize) -> usize
    requires by_run { AreByRun places.now }
    ensures within { result ≤ length places.now }
    ensures splits { IsSplit (λ p. nat_le (run_number p) run.0) places.now result }
{
    if is_end_of_run(places, run, guess) {
        return guess;
    }
    places.partition_point(|p| p.run.0 <= run.0)
}

// Whether the places from this one on are of later runs, and the others are not, by a look at its two neighbours.
fn is_end_of_run(places: &[Place], run: RunNo, at: usize) -> bool
    requires by_run { AreByRun places.now }
    ensures within { result ≡ true → at ≤ length places.now }
    ensures splits { result ≡ true → IsSplit (λ p. nat_le (run_number p) run.0) places.now at }
{
    if at > places.len() {
        return false;
    }
    if at > 0 && places[at - 1].run.0 > run.0 {
        return false;
    }
    at == places.len() || places[at].run.0 > run.0
}

// How many places the groups have, or just more than there may be.
fn size_of_groups(groups: &[Group]) -> usize
    ensures { result ≡ min (sum_by group_size groups.now) 4_194_305 }
{
    let mut size = 0;
    for group in groups {
        size = (size + usize::from(group.last) + 1 - usize::from(group.first)).min(MOST_PLACES + 1);
    }
    size
}

fn places_of(alloc: Global, run: RunNo, coach: &Coach) -> Result<Vec<Place>, AllocError>
    ensures places { IfOk result (λ v. v.items
        ≡ coach_places run.0 coach.now.number coach.now.class coach.now.groups.items) }
    ensures some { IfOk result (λ v. length coach.now.groups.items ≤ length v.items) }
{
    let mut places = Vec::new(alloc);
    for group in &coach.groups {
        push_group(&mut places, run, coach.number, coach.class, group)?;
    }
    Ok(places)
}

fn push_group(
    places: &mut Vec<Place>,
    run: RunNo,
    coach: u16,
    class: Class,
    group: &Group,
) -> Result<(), AllocError>
    ensures places { OnOk result (places.new.items ≡ places.old.items ++ group_places run.0 coach class group.now) }
    ensures some { OnOk result (length places.old.items < length places.new.items) }
{
    for number in u32::from(group.first)..u32::from(group.last) + 1 {
        places.push(Place {
            run,
            coach,
            number: number as u16,
            class,
            traits: group.traits,
        })?;
    }
    Ok(())
}

fn first_repeat(places: &[Place], fresh: &[Place]) -> Option<Place>
    ensures { result ≡ first_repeat_of places.now fresh.now }
{
    if are_apart(places, fresh) {
        return None;
    }
    for (i, place) in fresh.iter().enumerate() {
        if holds(places, place) || holds(&fresh[..i], place) {
            return Some(*place);
        }
    }
    None
}

// Whether the fresh places are of one coach that none of the others has, in rising number: then none of them stood
// before.
fn are_apart(places: &[Place], fresh: &[Place]) -> bool
    ensures { result ≡ true → first_repeat_of places.now fresh.now ≡ None }
{
    if fresh.is_empty() {
        return true;
    }
    let coach = fresh[0].coach;
    if !is_new(places, coach) {
        return false;
    }
    rises(fresh, coach)
}

// Whether none of the places is of the coach.
fn is_new(places: &[Place], coach: u16) -> bool
    ensures { result ≡ true → AreOfOthers coach places.now }
{
    for place in places {
        if place.coach == coach {
            return false;
        }
    }
    true
}

// Whether the places are of the coach, each with a greater number than the one before.
fn rises(places: &[Place], coach: u16) -> bool
    ensures { result ≡ true → AreRisingFrom coach 0 places.now }
{
    let mut least = 0u32;
    for place in places {
        if place.coach != coach || u32::from(place.number) < least {
            return false;
        }
        least = u32::from(place.number) + 1;
    }
    true
}

fn holds(places: &[Place], place: &Place) -> bool
    ensures { result ≡ has_place places.now place.now }
{
    for p in places {
        if p.run.0 == place.run.0 && p.coach == place.coach && p.number == place.number {
            return true;
        }
    }
    false
}
