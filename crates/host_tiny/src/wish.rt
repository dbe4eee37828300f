// What a body asks for.
ghost use Rattle.std.specs.Prelude.{◌≡◌, ◌<◌, ◌≤◌, Ok, Err, IfOk, IfErr};
ghost use Rattle.claim_rule.specs.Rule.{most_place_legs};
ghost use Rattle.host_tiny.specs.Json.{json_of};
ghost use Rattle.host_tiny.specs.Wish.{wish_of};

use crate::json::{NoValue, read_value, whole_in};
use leg_masks::Span;
use std::alloc::Global;

/// A member of the body.
#[derive(Clone, Copy, PartialEq, Eq)]
pub enum FieldName {
    From,
    To,
}

/// Why a body asks for no span.
#[derive(Clone, Copy, PartialEq, Eq)]
pub enum WishFault {
    NotJson,
    BadField(FieldName),
    NoMemory,
}

/// The span that a body asks for, of a run with this number of legs.
pub fn read_wish(alloc: Global, body: &[u8], legs: u8) -> Result<Span, WishFault>
    requires some { 0 < legs }
    requires few { legs ≤ most_place_legs }
    ensures ok { IfOk result (λ span. wish_of legs (json_of body.now) ≡ Ok span) }
    ensures err { IfErr result (λ fault. ¬ (fault ≡ WishFault.NoMemory) → wish_of legs (json_of body.now) ≡ Err fault) }
{
    let value = match read_value(alloc, body) {
        Ok(value) => value,
        Err(NoValue::NotJson) => return Err(WishFault::NotJson),
        Err(NoValue::NoMemory) => return Err(WishFault::NoMemory),
    };
    let legs = u64::from(legs);
    let Some(from) = whole_in(value.get("from"), 0, legs - 1) else {
        return Err(WishFault::BadField(FieldName::From));
    };
    let Some(to) = whole_in(value.get("to"), from + 1, legs) else {
        return Err(WishFault::BadField(FieldName::To));
    };
    match Span::new(from as u8, to as u8) {
        Some(span) => Ok(span),
        None => unreachable!(),
    }
}
