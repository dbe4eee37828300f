ghost use Rattle.std.specs.Prelude.{◌≡◌, ◌≤◌, ◌+◌, [], length, Ok, Err, IfOk, OnOk, map, option_and_then};
ghost use Rattle.json_text.specs.View.{view};
ghost use Rattle.place_map.specs.Places.{EndsWithRun, with_places, coach_places};
ghost use Rattle.rail_catalogue.specs.Faults.{Refuses};
ghost use Rattle.rail_catalogue.specs.Json.{text_of, member_data};
ghost use Rattle.rail_catalogue.specs.CoachViews.{coach_view};
ghost use Rattle.rail_catalogue.specs.Coaches.{class_named, trait_named, traits_from, traits_of, group_at, groups_from, coach_at, coaches_from, placed};

use crate::fault::{CatalogueFault, GroupSpot, group_fault, run_item_fault, trait_fault};
use crate::json::{list_in, list_of, whole_in};
use json_text::Value;
use place_map::{Class, Coach, Group, PlaceFault, PlaceMap};
use rail_ids::RunNo;
use std::alloc::Global;

/// Adds the coaches of a run to the places.
pub fn read_coaches(
    alloc: Global,
    items: &[Value<'_>],
    run: u32,
    places: &mut PlaceMap,
) -> Result<(), CatalogueFault>
    requires no_later_run { EndsWithRun run places.old }
    ensures ok { OnOk result (coaches_from run 0 places.old (map view items.now) ≡ Ok places.new) }
    ensures grown { OnOk result (length places.old + length items.now ≤ length places.new) }
    ensures no_later_run { OnOk result (EndsWithRun run places.new) }
    ensures err { Refuses (coaches_from run 0 places.old (map view items.now)) result }
{
    for (n, item) in items.iter().enumerate() {
        let coach = read_coach(alloc, item, run as usize, n)?;
        add_coach(places, run, &coach)?;
    }
    Ok(())
}

fn add_coach(places: &mut PlaceMap, run: u32, coach: &Coach) -> Result<(), CatalogueFault>
    requires no_later_run { EndsWithRun run places.old }
    ensures ok { OnOk result (placed (with_places run places.old
        (coach_places run coach.now.number coach.now.class coach.now.groups.items)) ≡ Ok places.new) }
    ensures grown { OnOk result (length places.old + length coach.now.groups.items ≤ length places.new) }
    ensures no_later_run { OnOk result (EndsWithRun run places.new) }
    ensures err { Refuses (placed (with_places run places.old
        (coach_places run coach.now.number coach.now.class coach.now.groups.items))) result }
{
    match places.add_coach(RunNo(run), coach) {
        Ok(()) => Ok(()),
        Err(PlaceFault::NoMemory) => Err(CatalogueFault::NoMemory),
        Err(fault) => Err(CatalogueFault::Place(fault)),
    }
}

fn read_coach(
    alloc: Global,
    item: &Value<'_>,
    run: usize,
    n: usize,
) -> Result<Coach, CatalogueFault>
    ensures ok { IfOk result (λ c. coach_at run n (view item.now) ≡ Ok (coach_view c)) }
    ensures some { IfOk result (λ c. 1 ≤ length c.groups.items) }
    ensures err { Refuses (coach_at run n (view item.now)) result }
{
    if !item.is_object() {
        return Err(run_item_fault(alloc, run, "coaches", n, ""));
    }
    let Some(number) = whole_in(item.get("coach"), 1, 999) else {
        return Err(run_item_fault(alloc, run, "coaches", n, ".coach"));
    };
    let Some(class) = read_class(item.get("class")) else {
        return Err(run_item_fault(alloc, run, "coaches", n, ".class"));
    };
    let Some(items) = list_in(item.get("places"), 1, 9_223_372_036_854_775_807) else {
        return Err(run_item_fault(alloc, run, "coaches", n, ".places"));
    };
    Ok(Coach {
        number: number as u16,
        class,
        groups: read_groups(alloc, items, run, n)?,
    })
}

fn read_class(value: Option<&Value<'_>>) -> Option<Class>
    ensures { result ≡ option_and_then class_named (text_of (member_data value.entry)) }
{
    match value.and_then(Value::as_str)? {
        "FIRST" => Some(Class::First),
        "SECOND" => Some(Class::Second),
        _ => None,
    }
}

fn read_groups(
    alloc: Global,
    items: &[Value<'_>],
    run: usize,
    coach: usize,
) -> Result<Vec<Group>, CatalogueFault>
    ensures ok { IfOk result (λ v. groups_from run coach [] (map view items.now) ≡ Ok v.items) }
    ensures count { IfOk result (λ v. length v.items ≡ length items.now) }
    ensures err { Refuses (groups_from run coach [] (map view items.now)) result }
{
    let mut groups = Vec::new(alloc);
    for item in items {
        let at = GroupSpot {
            run,
            coach,
            group: groups.len(),
        };
        groups.push(read_group(alloc, item, at)?)?;
    }
    Ok(groups)
}

fn read_group(alloc: Global, item: &Value<'_>, at: GroupSpot) -> Result<Group, CatalogueFault>
    ensures ok { IfOk result (λ g. group_at at.run at.coach at.group (view item.now) ≡ Ok g) }
    ensures err { Refuses (group_at at.run at.coach at.group (view item.now)) result }
{
    if !item.is_object() {
        return Err(group_fault(alloc, at, ""));
    }
    let Some(first) = whole_in(item.get("first"), 1, 9_999) else {
        return Err(group_fault(alloc, at, ".first"));
    };
    let Some(last) = whole_in(item.get("last"), first, 9_999) else {
        return Err(group_fault(alloc, at, ".last"));
    };
    let traits = read_traits(alloc, item.get("traits"), at)?;
    Ok(Group::new(first as u16, last as u16, traits))
}

fn read_traits(
    alloc: Global,
    value: Option<&Value<'_>>,
    at: GroupSpot,
) -> Result<u8, CatalogueFault>
    ensures ok { IfOk result (λ t. traits_of at.run at.coach at.group (member_data value.entry) ≡ Ok t) }
    ensures err { Refuses (traits_of at.run at.coach at.group (member_data value.entry)) result }
{
    if value.is_none() {
        return Ok(0);
    }
    let Some(items) = list_of(value) else {
        return Err(group_fault(alloc, at, ".traits"));
    };
    read_trait_items(alloc, items, at)
}

fn read_trait_items(alloc: Global, items: &[Value<'_>], at: GroupSpot) -> Result<u8, CatalogueFault>
    ensures ok { IfOk result (λ t. traits_from at.run at.coach at.group 0 0 (map view items.now) ≡ Ok t) }
    ensures err { Refuses (traits_from at.run at.coach at.group 0 0 (map view items.now)) result }
{
    let mut found = 0u8;
    for (n, item) in items.iter().enumerate() {
        let Some(bit) = item.as_str().and_then(trait_bit) else {
            return Err(trait_fault(alloc, at, n));
        };
        found |= bit;
    }
    Ok(found)
}

fn trait_bit(name: &str) -> Option<u8>
    ensures { result ≡ trait_named name.now }
{
    match name {
        "WINDOW" => Some(1),
        "AISLE" => Some(2),
        "TABLE" => Some(4),
        "QUIET" => Some(8),
        "POWER" => Some(16),
        _ => None,
    }
}
