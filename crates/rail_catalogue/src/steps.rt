ghost use Rattle.std.specs.Prelude.{◌≡◌, ◌≤◌, [], Ok, Err, IfOk, length, map};
ghost use Rattle.json_text.specs.View.{view};
ghost use Rattle.rail_catalogue.specs.Faults.{Refuses};
ghost use Rattle.rail_catalogue.specs.Steps.{step_at, steps_from, terms_of};

use crate::fault::{CatalogueFault, field_fault, item_fault};
use crate::json::{list_in, whole_in, whole_or};
use json_text::Value;
use std::alloc::Global;
use tariff::{RefundStep, Terms};

/// The terms of the whole.
pub fn read_terms(
    alloc: Global,
    whole: &Value<'_>,
    confirm_seconds: u32,
) -> Result<Terms, CatalogueFault>
    requires some_time { 1 ≤ confirm_seconds }
    requires a_day { confirm_seconds ≤ 86_400 }
    ensures ok { IfOk result (λ t. terms_of confirm_seconds (view whole.now) ≡ Ok t) }
    ensures err { Refuses (terms_of confirm_seconds (view whole.now)) result }
{
    let Some(items) = list_in(whole.get("refundSteps"), 0, 64) else {
        return Err(field_fault(alloc, "refundSteps"));
    };
    let steps = read_steps(alloc, items)?;
    let Some(ticket_fee) = whole_or(whole.get("ticketFee"), 0, 0, 4_294_967_295) else {
        return Err(field_fault(alloc, "ticketFee"));
    };
    let Some(exchange_fee) = whole_or(whole.get("exchangeFee"), 0, 0, 4_294_967_295) else {
        return Err(field_fault(alloc, "exchangeFee"));
    };
    match Terms::new(steps, ticket_fee, exchange_fee, confirm_seconds) {
        Ok(terms) => Ok(terms),
        Err(fault) => Err(CatalogueFault::Tariff(fault)),
    }
}

fn read_steps(alloc: Global, items: &[Value<'_>]) -> Result<Vec<RefundStep>, CatalogueFault>
    ensures ok { IfOk result (λ v. steps_from [] (map view items.now) ≡ Ok v.items) }
    ensures few { IfOk result (λ v. length v.items ≡ length items.now) }
    ensures err { Refuses (steps_from [] (map view items.now)) result }
{
    let mut steps = Vec::new(alloc);
    for item in items {
        steps.push(read_step(alloc, item, steps.len())?)?;
    }
    Ok(steps)
}

fn read_step(alloc: Global, item: &Value<'_>, n: usize) -> Result<RefundStep, CatalogueFault>
    ensures ok { IfOk result (λ s. step_at n (view item.now) ≡ Ok s) }
    ensures err { Refuses (step_at n (view item.now)) result }
{
    if !item.is_object() {
        return Err(item_fault(alloc, "refundSteps", n, ""));
    }
    let Some(before) = whole_in(item.get("before"), 0, 4_294_967_295) else {
        return Err(item_fault(alloc, "refundSteps", n, ".before"));
    };
    let Some(fee) = whole_in(item.get("fee"), 0, 4_294_967_295) else {
        return Err(item_fault(alloc, "refundSteps", n, ".fee"));
    };
    Ok(RefundStep { before, fee })
}
