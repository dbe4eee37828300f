//! Places with their traits, and whether each is free.
ghost use Rattle.std.specs.Prelude.{◌≡◌, ◌++◌, ◌||◌, length, true, false, decimal, IfOk, OnOk};
ghost use Rattle.serde_json.specs.Written.{compact_text};
ghost use Rattle.osdm_parts.specs.Places.{place_list_tree};
ghost use Rattle.osdm_parts.specs.PlaceTexts.{class_line, first_line, free_line, front_line, last_line, traits_text};

use itoa::{Buffer, Integer};
use place_map::{Class, Place};
use std::alloc::{AllocError, Global};

/// How many bytes few places need more of.
const PLACE_BYTES: usize = 88;

/// The JSON text of the list of these places.
pub fn places_text(alloc: Global, places: &[Place], free: &[bool]) -> Result<Vec<u8>, AllocError>
    requires one_each { length free.now ≡ length places.now }
    ensures { IfOk result (λ text. text.items ≡ compact_text (place_list_tree places.now free.now)) }
{
    let room = places.len().saturating_mul(PLACE_BYTES);
    let mut text = Vec::with_capacity(alloc, room.saturating_add(16))?;
    put(&mut text, b"{\"places\":[")?;
    let mut front = Front::new(alloc, false, Class::First, 0)?;
    let mut end = line_behind(alloc, 0)?;
    let mut traits = 0;
    for (n, place) in places.iter().enumerate() {
        renew(alloc, &mut front, n > 0, place)?;
        renew_end(&mut end, traits, place.traits)?;
        traits = place.traits;
        put_place(&mut text, &front, end.as_slice(), place, free[n])?;
    }
    put(&mut text, b"]}")?;
    Ok(text)
}

// What stands before the number of a place, free or taken. It is the same for all places of a coach, so it is put
// together once for them.
#[derive(Drop)]
struct Front {
    is_later: bool,
    class: Class,
    coach: u16,
    free: Vec<u8>,
    taken: Vec<u8>,
    ghost lines: { (free.items ≡ front_line is_later class coach true)
        × (taken.items ≡ front_line is_later class coach false) },
}

impl Front {
    fn new(alloc: Global, is_later: bool, class: Class, coach: u16) -> Result<Front, AllocError>
        ensures { IfOk result (λ f. (f.is_later ≡ is_later) × (f.class ≡ class) × (f.coach ≡ coach)) }
    {
        let free = line_before(alloc, is_later, class, coach, true)?;
        let taken = line_before(alloc, is_later, class, coach, false)?;
        Ok(Front {
            is_later,
            class,
            coach,
            free,
            taken,
        })
    }

    fn fits(&self, is_later: bool, place: &Place) -> bool
        ensures { result ≡ true → (self.now.is_later ≡ is_later) × (self.now.class ≡ place.now.class)
            × (self.now.coach ≡ place.now.coach) }
    {
        self.is_later == is_later && self.class == place.class && self.coach == place.coach
    }
}

// What stands before the number of a place.
fn line_before(
    alloc: Global,
    is_later: bool,
    class: Class,
    coach: u16,
    free: bool,
) -> Result<Vec<u8>, AllocError>
    ensures { IfOk result (λ text. text.items ≡ front_line is_later class coach free) }
{
    let mut text = Vec::new(alloc);
    put(&mut text, class_text(is_later, class))?;
    put_number(&mut text, coach)?;
    put(&mut text, free_text(free))?;
    Ok(text)
}

// What stands after the number of a place.
fn line_behind(alloc: Global, traits: u8) -> Result<Vec<u8>, AllocError>
    ensures { IfOk result (λ text. text.items ≡ traits_text traits) }
{
    let mut text = Vec::new(alloc);
    put_traits(&mut text, traits)?;
    Ok(text)
}

// Makes the front that of the place, where it isn't.
fn renew(alloc: Global, front: &mut Front, is_later: bool, place: &Place) -> Result<(), AllocError>
    ensures { OnOk result ((front.new.is_later ≡ is_later) × (front.new.class ≡ place.now.class)
        × (front.new.coach ≡ place.now.coach)) }
{
    if front.fits(is_later, place) {
        return Ok(());
    }
    *front = Front::new(alloc, is_later, place.class, place.coach)?;
    Ok(())
}

// Makes what stands after the number of a place with the traits before that of one with these, where it isn't.
fn renew_end(end: &mut Vec<u8>, before: u8, traits: u8) -> Result<(), AllocError>
    requires before { end.old.items ≡ traits_text before }
    ensures { OnOk result (end.new.items ≡ traits_text traits) }
{
    if before == traits {
        return Ok(());
    }
    end.clear();
    put_traits(end, traits)
}

// The text of a place with this front and this end.
fn put_place(
    text: &mut Vec<u8>,
    front: &Front,
    end: &[u8],
    place: &Place,
    free: bool,
) -> Result<(), AllocError>
    ensures { OnOk result (text.new.items ≡ text.old.items
        ++ (front_line front.now.is_later front.now.class front.now.coach free
        ++ (decimal place.now.number ++ end.now))) }
{
    let line = if free {
        front.free.as_slice()
    } else {
        front.taken.as_slice()
    };
    put(text, line)?;
    put_number(text, place.number)?;
    put(text, end)
}

// The beginning of a place's text, up to the number of its coach.
fn class_text(is_later: bool, class: Class) -> &'static [u8]
    ensures { result.now ≡ class_line is_later class }
{
    match (class, is_later) {
        (Class::First, true) => b",{\"class\":\"FIRST\",\"coach\":",
        (Class::First, false) => b"{\"class\":\"FIRST\",\"coach\":",
        (Class::Second, true) => b",{\"class\":\"SECOND\",\"coach\":",
        (Class::Second, false) => b"{\"class\":\"SECOND\",\"coach\":",
    }
}

// What stands between the number of a place's coach and its own.
fn free_text(free: bool) -> &'static [u8]
    ensures { result.now ≡ free_line free }
{
    if free {
        b",\"free\":true,\"place\":"
    } else {
        b",\"free\":false,\"place\":"
    }
}

fn put(text: &mut Vec<u8>, piece: &[u8]) -> Result<(), AllocError>
    ensures { OnOk result (text.new.items ≡ text.old.items ++ piece.now) }
{
    text.extend_from_slice(piece)
}

// The number in decimal digits.
fn put_number<I: Integer>(text: &mut Vec<u8>, number: I) -> Result<(), AllocError>
    ensures { OnOk result (text.new.items ≡ text.old.items ++ I.text number) }
{
    text.extend_from_slice(Buffer::new().format(number).as_bytes())
}

// The traits, and the end of the place's text.
fn put_traits(text: &mut Vec<u8>, traits: u8) -> Result<(), AllocError>
    ensures { OnOk result (text.new.items ≡ text.old.items ++ traits_text traits) }
{
    let first = first_traits(traits & 1 == 1, traits & 2 == 2, traits & 4 == 4);
    put(text, first.0)?;
    put(
        text,
        last_traits(first.1, traits & 8 == 8, traits & 16 == 16),
    )
}

// The names of the first three that are given, and whether one is.
fn first_traits(window: bool, aisle: bool, table: bool) -> (&'static [u8], bool)
    ensures text { result.0.now ≡ first_line window aisle table }
    ensures later { result.1 ≡ ((window || aisle) || table) }
{
    match (window, aisle, table) {
        (false, false, false) => (b",\"traits\":[", false),
        (false, false, true) => (b",\"traits\":[\"TABLE\"", true),
        (false, true, false) => (b",\"traits\":[\"AISLE\"", true),
        (false, true, true) => (b",\"traits\":[\"AISLE\",\"TABLE\"", true),
        (true, false, false) => (b",\"traits\":[\"WINDOW\"", true),
        (true, false, true) => (b",\"traits\":[\"WINDOW\",\"TABLE\"", true),
        (true, true, false) => (b",\"traits\":[\"WINDOW\",\"AISLE\"", true),
        (true, true, true) => (b",\"traits\":[\"WINDOW\",\"AISLE\",\"TABLE\"", true),
    }
}

// The names of the last two that are given, after a comma where one stands before, and the end of the place.
fn last_traits(is_later: bool, quiet: bool, power: bool) -> &'static [u8]
    ensures { result.now ≡ last_line is_later quiet power }
{
    match (is_later, quiet, power) {
        (_, false, false) => b"]}",
        (false, false, true) => b"\"POWER\"]}",
        (false, true, false) => b"\"QUIET\"]}",
        (false, true, true) => b"\"QUIET\",\"POWER\"]}",
        (true, false, true) => b",\"POWER\"]}",
        (true, true, false) => b",\"QUIET\"]}",
        (true, true, true) => b",\"QUIET\",\"POWER\"]}",
    }
}
