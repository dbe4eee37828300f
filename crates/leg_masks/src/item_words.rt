ghost use Rattle.std.specs.Prelude.{◌≡◌, ℕ, IfSome, IfNone};
ghost use Rattle.leg_masks.specs.Interval.{Interval, item_word, IsItemOf, IsWordOfNoOther};

use crate::{Item, MOST_LEGS, MOST_PLACES, Span, WORD_LEGS};

/// The word of an item: its place times 65,536, its first leg times 256, and the leg after its last.
pub fn write_item(item: Item) -> u64
    ensures value { result ≡ item_word item.place item.span }
    ensures read_back { IsItemOf item.place item.span result }
{
    item_word_of(item.place, item.span)
}

/// The item of a word: `None` exactly where the word is no item's, as where its legs don't lie in one half. The item is
/// the only one of that word.
pub fn read_item(word: u64) -> Option<Item>
    ensures some { IfSome result (λ item. IsItemOf item.place item.span word) }
    ensures only { IfSome result (λ item. IsWordOfNoOther item.place item.span word) }
    ensures none { IfNone result ((place : ℕ) (span : Interval) → ¬ IsItemOf place span word) }
{
    let place = word / 65536;
    let from = word / 256 % 256;
    let to = word % 256;
    if place >= u64::from(MOST_PLACES) {
        return None;
    }
    if from >= to {
        return None;
    }
    if to > u64::from(MOST_LEGS) {
        return None;
    }
    if from < u64::from(WORD_LEGS) && u64::from(WORD_LEGS) < to {
        return None;
    }
    Some(Item {
        place: place as u32,
        span: Span {
            from: from as u8,
            to: to as u8,
        },
    })
}

/// The word of an item, by its place and its legs.
pub fn item_word_of(place: u32, span: Span) -> u64
    ensures { result ≡ item_word place span }
{
    u64::from(place) * 65536 + u64::from(span.from) * 256 + u64::from(span.to)
}
