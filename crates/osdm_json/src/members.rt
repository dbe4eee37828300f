//! Members of a body, each by its kind.
ghost use Rattle.std.specs.Prelude.{◌≡◌, ◌≤◌, ◌+◌, Some, None, IfOk, IfErr, IfSome, map, option_map};
ghost use Rattle.json_text.specs.View.{view};
ghost use Rattle.rail_time.specs.Moments.{last_second};
ghost use Rattle.rail_catalogue.specs.Json.{json_of, text_of};
ghost use Rattle.rail_catalogue.specs.Coaches.{class_named as class_named_of, trait_named};
ghost use Rattle.osdm_json.specs.Members.{class_in as class_of, flag_in as flag_of, traits_in as traits_of, traits_from, moment_in as moment_of_member, latest_in as latest_of};

use crate::fault::BodyFault;
use json_text::{ReadFault, Scratch, Value};
use place_map::Class;
use rail_catalogue::list_of;
use rail_time::{Moment, read_moment};
use std::alloc::Global;

/// The seconds of a day.
const DAY: u32 = 86_400;

/// The JSON value that the bytes are.
pub(crate) fn read_value<'a>(
    alloc: Global,
    body: &'a [u8],
    scratch: &'a mut Scratch,
) -> Result<Value<'a>, BodyFault>
    ensures ok { IfOk result (λ v. json_of body.now ≡ Some (view v)) }
    ensures kinds { IfErr result (λ e. ¬ (e ≡ BodyFault.NoMemory) → e ≡ BodyFault.NotJson) }
    ensures err { IfErr result (λ e. ¬ (e ≡ BodyFault.NoMemory) → json_of body.now ≡ None) }
{
    match json_text::read_value(alloc, body, scratch) {
        Ok(value) => Ok(value),
        Err(ReadFault::NoMemory) => Err(BodyFault::NoMemory),
        Err(ReadFault::NotJson) => Err(BodyFault::NotJson),
    }
}

/// True or false, and false where the member is missing.
pub(crate) fn flag_in(value: Option<&Value<'_>>) -> Option<bool>
    ensures { result ≡ flag_of (option_map (λ v. view v.now) value.entry) }
{
    match value {
        None => Some(false),
        Some(value) => value.as_bool(),
    }
}

/// A text.
pub(crate) fn text_in<'a>(value: Option<&Value<'a>>) -> Option<&'a str>
    ensures { option_map (λ t. t.now) result ≡ text_of (option_map (λ v. view v.now) value.entry) }
{
    match value {
        Some(value) => value.as_str(),
        None => None,
    }
}

/// The class, which is second where the member is missing.
pub(crate) fn class_in(value: Option<&Value<'_>>) -> Option<Class>
    ensures { result ≡ class_of (option_map (λ v. view v.now) value.entry) }
{
    match value {
        None => Some(Class::Second),
        Some(value) => class_named(value.as_str()?),
    }
}

fn class_named(name: &str) -> Option<Class>
    ensures { result ≡ class_named_of name.now }
{
    match name {
        "FIRST" => Some(Class::First),
        "SECOND" => Some(Class::Second),
        _ => None,
    }
}

/// The sum of the bits of the traits, which are none where the member is missing.
pub(crate) fn traits_in(value: Option<&Value<'_>>) -> Option<u8>
    ensures value { result ≡ traits_of (option_map (λ v. view v.now) value.entry) }
    ensures most { IfSome result (λ traits. traits ≤ 31) }
{
    match value {
        None => Some(0),
        Some(value) => sum_of_traits(list_of(Some(value))?),
    }
}

fn sum_of_traits(items: &[Value<'_>]) -> Option<u8>
    ensures value { result ≡ traits_from 0 (map view items.now) }
    ensures most { IfSome result (λ traits. traits ≤ 31) }
{
    let mut found = 0u8;
    for item in items {
        found |= trait_bit(item.as_str()?)?;
    }
    Some(found)
}

fn trait_bit(name: &str) -> Option<u8>
    ensures value { result ≡ trait_named name.now }
    ensures most { IfSome result (λ bit. bit ≤ 31) }
{
    match name {
        "WINDOW" => Some(1),
        "AISLE" => Some(2),
        "TABLE" => Some(4),
        "QUIET" => Some(8),
        "POWER" => Some(16),
        _ => None,
    }
}

/// A moment (RFC 3339).
pub(crate) fn moment_in(alloc: Global, value: Option<&Value<'_>>) -> Option<Moment>
    ensures { result ≡ moment_of_member (option_map (λ v. view v.now) value.entry) }
{
    let text = text_in(value)?;
    read_moment(alloc, text).ok()
}

/// The end of a window, from its beginning to two days later; a day later where the member is missing.
pub(crate) fn latest_in(
    alloc: Global,
    earliest: Moment,
    value: Option<&Value<'_>>,
) -> Option<Moment>
    ensures value { result ≡ latest_of earliest (option_map (λ v. view v.now) value.entry) }
    ensures window { IfSome result (λ latest. earliest ≤ latest) }
    ensures in_years { IfSome result (λ latest. latest ≤ last_second) }
{
    let Some(given) = value else {
        return Some(earliest.later(DAY));
    };
    let latest = moment_in(alloc, Some(given))?;
    if earliest.seconds() <= latest.seconds()
        && latest.seconds() <= earliest.seconds() + 2 * u64::from(DAY)
    {
        Some(latest)
    } else {
        None
    }
}
