ghost use Rattle.std.specs.Prelude.{◌≡◌, Ok, Err, IfOk, length};
ghost use Rattle.std.specs.List.{list_all};
ghost use Rattle.json_text.specs.View.{view};
ghost use Rattle.rail_catalogue.specs.Json.{member_data};
ghost use Rattle.rail_catalogue.specs.Faults.{Refuses};
ghost use Rattle.rail_catalogue.specs.Retailers.{with_retailer, retailers_of, is_key as is_key_of, is_key_byte as is_key_byte_of};

use crate::fault::{CatalogueFault, field_fault, item_fault};
use crate::json::{list_in, whole_in};
use catalogue_contents::Retailers;
use json_text::Value;
use std::alloc::Global;

// The retailers with the next item of the list, which has this index.
fn with_item(
    found: Retailers,
    alloc: Global,
    item: &Value<'_>,
    n: usize,
) -> Result<Retailers, CatalogueFault>
    requires { n ≡ length found }
    ensures ok { IfOk result (λ r. with_retailer found (view item.now) ≡ Ok r) }
    ensures err { Refuses (with_retailer found (view item.now)) result }
{
    if !item.is_object() {
        return Err(item_fault(alloc, "retailers", n, ""));
    }
    let Some(number) = whole_in(item.get("number"), 1, 4_294_967_295) else {
        return Err(item_fault(alloc, "retailers", n, ".number"));
    };
    if found.has_number(number) {
        return Err(CatalogueFault::DoubleKey);
    }
    let key = match item.get("key").and_then(Value::as_str) {
        Some(key) if is_key(key.as_bytes()) => key,
        _ => return Err(item_fault(alloc, "retailers", n, ".key")),
    };
    if found.number_of(key.as_bytes()).is_some() {
        return Err(CatalogueFault::DoubleKey);
    }
    Ok(found.with(alloc, number, key.as_bytes())?)
}

/// The retailers of the member.
pub fn read_retailers(alloc: Global, value: Option<&Value<'_>>) -> Result<Retailers, CatalogueFault>
    ensures ok { IfOk result (λ r. retailers_of (member_data value.entry) ≡ Ok r) }
    ensures err { Refuses (retailers_of (member_data value.entry)) result }
{
    let Some(items) = list_in(value, 1, 65_536) else {
        return Err(field_fault(alloc, "retailers"));
    };
    let mut found = Retailers::new(alloc);
    for (n, item) in items.iter().enumerate() {
        found = with_item(found, alloc, item, n)?;
    }
    Ok(found)
}

fn is_key(key: &[u8]) -> bool
    ensures { result ≡ is_key_of key.now }
{
    1 <= key.len() && key.len() <= 32 && has_key_bytes(key)
}

fn has_key_bytes(key: &[u8]) -> bool
    ensures { result ≡ list_all is_key_byte_of key.now }
{
    key.iter().all(|b| is_key_byte(*b))
}

fn is_key_byte(b: u8) -> bool
    ensures { result ≡ is_key_byte_of b }
{
    b.is_ascii_alphanumeric() || b == b'-' || b == b'_'
}
