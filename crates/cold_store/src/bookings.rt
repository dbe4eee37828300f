//! The line of a booking, read.
ghost use Rattle.std.specs.Prelude.{◌≡◌, ◌<◌, ◌≤◌, All, IfNone, IfSome, length, option_map};
ghost use Rattle.leg_masks.specs.Interval.{most_places};
ghost use Rattle.claim_rule.specs.Rule.{IsPlaceLegs};
ghost use Rattle.cold_store.specs.Right.{IsWithin, kept_item};
ghost use Rattle.cold_store.specs.Reads.{ReadsItems, ReadsLine, items_with};

use arrayvec::ArrayVec;
use history_model::booking::MOST_ITEMS;
use history_model::phase::Phase;
use leg_masks::{Item, Span};
use line_text::{Head, Reader, SaidEnd, SaidItem};
use std::marker::Model;

/// The items of a line: `None` where they are more than a booking has, or one doesn't lie within its place.
pub(crate) type Items = Option<ArrayVec<Item, MOST_ITEMS>>;

/// A line of a booking.
#[derive(Drop)]
pub(crate) struct Line {
    pub(crate) head: Head,
    pub(crate) items: Items,
    pub(crate) end: SaidEnd,
}

impl Model for Line {
    ghost use Rattle.std.specs.Prelude.{option_map};
    ghost use Rattle.cold_store.specs.Reads.{LineView};

    ghost Value = { LineView };

    ghost view = { λ l. record { head = l.head; items = option_map (λ v. v.items) l.items; end = l.end } };
}

// The item, if it is a piece within the legs of its place.
fn within(legs: &[u8], said: SaidItem) -> Option<Item>
    requires places { length legs.now ≤ most_places }
    requires legs { All IsPlaceLegs legs.now }
    ensures some { IfSome result (λ item. IsWithin legs.now said × (item ≡ kept_item said)) }
    ensures none { IfNone result (¬ IsWithin legs.now said) }
{
    let place = usize::try_from(said.place).ok()?;
    let most = *legs.get(place)?;
    let to = u8::try_from(said.to).ok()?;
    if to > most {
        return None;
    }
    let span = Span::new(u8::try_from(said.from).ok()?, to)?;
    Item::new(u32::try_from(said.place).ok()?, span)
}

// So many items.
fn read_items(reader: &mut Reader<'_>, legs: &[u8], count: u64) -> Option<Items>
    requires places { length legs.now ≤ most_places }
    requires legs { All IsPlaceLegs legs.now }
    ensures { ReadsItems legs.now count reader.old.rest.now reader.new.rest.now
        (option_map (λ is. option_map (λ v. v.items) is) result) }
{
    let mut items = Some(ArrayVec::new());
    for _ in 0..count {
        let said = reader.item()?;
        items = with_item(items, within(legs, said));
    }
    Some(items)
}

/// The line of a booking, with its line feed.
pub(crate) fn read_line(reader: &mut Reader<'_>, legs: &[u8]) -> Option<Line>
    requires places { length legs.now ≤ most_places }
    requires legs { All IsPlaceLegs legs.now }
    ensures { ReadsLine legs.now reader.old.rest.now reader.new.rest.now result }
{
    let head = reader.head()?;
    let items = read_items(reader, legs, head.count)?;
    let end = reader.end(head.phase)?;
    if !reader.eat(b"\n") {
        return None;
    }
    Some(Line { head, items, end })
}

// The items with one more: `None` where one is none, or there is no room.
fn with_item(items: Items, item: Option<Item>) -> Items
    ensures { option_map (λ v. v.items) result ≡ items_with (option_map (λ v. v.items) items) item }
{
    let mut items = items?;
    let item = item?;
    if items.len() == MOST_ITEMS {
        return None;
    }
    items.push(item);
    Some(items)
}
