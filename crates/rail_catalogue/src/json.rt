ghost use Rattle.std.specs.Prelude.{◌≡◌, ◌≤◌, IfOk, IfErr, IfSome, None, IsUtf8, length, map, option_map};
ghost use Rattle.json_text.specs.View.{view};
ghost use Rattle.json_text.specs.Outlines.{IsOutline};
ghost use Rattle.serde_json.specs.Find.{as_array};
ghost use Rattle.rail_catalogue.specs.Faults.{fault_of, not_json};
ghost use Rattle.rail_catalogue.specs.Json.{data_of, json_of, whole_in as whole_of, whole_or as whole_or_of, list_of as list_of_member, list_in as list_in_of, member_data};

use crate::fault::CatalogueFault;
use json_text::{Outline, ReadFault, Scratch, Value, read_outline};
use std::alloc::Global;

/// The JSON that the bytes are, without the members of the name.
pub fn outline_of<'a>(
    alloc: Global,
    text: &'a [u8],
    scratch: &'a mut Scratch,
    name: &str,
) -> Result<Outline<'a>, CatalogueFault>
    ensures utf8 { IfOk result (λ _. IsUtf8 text.now) }
    ensures ok { IfOk result (λ o. IsOutline name.now text.now (view o.kept) o.place) }
    ensures kind { IfErr result (λ e. IfSome (fault_of e) (λ f. f ≡ not_json)) }
    ensures err { IfErr result (λ e. IfSome (fault_of e) (λ _. json_of text.now ≡ None)) }
{
    match read_outline(alloc, text, scratch, name) {
        Ok(outline) => Ok(outline),
        Err(ReadFault::NoMemory) => Err(CatalogueFault::NoMemory),
        Err(ReadFault::NotJson) => Err(CatalogueFault::NotJson),
    }
}

/// A whole number in this range.
pub fn whole_in(value: Option<&Value<'_>>, least: u32, most: u32) -> Option<u32>
    ensures value { result ≡ whole_of least most (member_data value.entry) }
    ensures least { IfSome result (λ n. least ≤ n) }
    ensures most { IfSome result (λ n. n ≤ most) }
{
    let number = value.and_then(Value::as_u64)?;
    if u64::from(least) <= number && number <= u64::from(most) {
        Some(number as u32)
    } else {
        None
    }
}

/// The same, where the member may be missing.
pub fn whole_or(value: Option<&Value<'_>>, default: u32, least: u32, most: u32) -> Option<u32>
    requires low { least ≤ default }
    requires high { default ≤ most }
    ensures value { result ≡ whole_or_of default least most (member_data value.entry) }
    ensures least { IfSome result (λ n. least ≤ n) }
    ensures most { IfSome result (λ n. n ≤ most) }
{
    match value {
        None => Some(default),
        Some(value) => whole_in(Some(value), least, most),
    }
}

// The items of a list.
fn items_of<'v, 'a>(value: &'v Value<'a>) -> Option<&'v [Value<'a>]>
    ensures { option_map (λ v. map view v.now) result ≡ option_map data_of (as_array (view value.now)) }
{
    value.as_array()
}

/// A list of any length.
pub fn list_of<'v, 'a>(value: Option<&'v Value<'a>>) -> Option<&'v [Value<'a>]>
    ensures { option_map (λ v. map view v.now) result ≡ list_of_member (member_data value.entry) }
{
    match value {
        Some(value) => items_of(value),
        None => None,
    }
}

/// A list of that many items.
pub fn list_in<'v, 'a>(
    value: Option<&'v Value<'a>>,
    least: usize,
    most: usize,
) -> Option<&'v [Value<'a>]>
    ensures value { option_map (λ v. map view v.now) result ≡ list_in_of least most (member_data value.entry) }
    ensures least { IfSome result (λ v. least ≤ length v.now) }
{
    let items = list_of(value)?;
    if least <= items.len() && items.len() <= most {
        Some(items)
    } else {
        None
    }
}
