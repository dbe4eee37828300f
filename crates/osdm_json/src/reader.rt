ghost use Rattle.std.specs.Prelude.{◌≡◌, true, Result, Err, IfOk, IfErr};
ghost use Rattle.json_text.specs.View.{view};
ghost use Rattle.osdm_json.specs.declared.fault.BodyFault.{BodyFault};
ghost use Rattle.osdm_json.specs.Commands.{asked_in, asked_by, has_body as has_body_of, IsObject, IsNoObject, Asks};
ghost use Rattle.osdm_json.specs.Readable.{IsReadable};

use crate::command::Command;
use crate::fault::BodyFault;
use crate::members::read_value;
use crate::offers::read_offers;
use crate::orders::{
    read_accept_exchange, read_accept_refund, read_book, read_fulfil, read_quote_exchange,
};
use crate::route::Route;
use crate::spellings::row_of;
use crate::stretches::{read_places, read_reserve};
use catalogue_contents::Catalogue;
use json_text::{Scratch, Value};
use osdm_texts::FieldName;
use std::alloc::Global;

/// Memory for the reading of bodies. What one took serves the next.
#[derive(Drop)]
pub struct BodyRoom {
    alloc: Global,
    scratch: Scratch,
}

impl BodyRoom {
    /// Room that is not taken yet.
    pub fn new(alloc: Global) -> BodyRoom {
        BodyRoom {
            alloc,
            scratch: Scratch::new(alloc),
        }
    }
}

/// The command that a route asks with this body, or the first fault: fields in the order of the route's table, then
/// stations. A route that has no body lets it be, and takes no memory. `NoMemory` is the one answer without a cause.
pub fn read_command(
    alloc: Global,
    cat: &Catalogue,
    route: Route<'_>,
    body: &[u8],
) -> Result<Command, BodyFault>
    ensures ok { IfOk result (λ c. Asks (asked_by cat.now route.entry body.now) c) }
    ensures readable { IfOk result (λ c. IsReadable cat.now c) }
    ensures err { IfErr result (λ e. ¬ (e ≡ BodyFault.NoMemory) → asked_by cat.now route.entry body.now ≡ Err e) }
    ensures memory { IfErr result (λ e. e ≡ BodyFault.NoMemory → has_body_of route.entry ≡ true) }
{
    let mut room = BodyRoom::new(alloc);
    read_command_in(&mut room, cat, route, body)
}

/// `read_command`, in room that is kept from body to body.
pub fn read_command_in(
    room: &mut BodyRoom,
    cat: &Catalogue,
    route: Route<'_>,
    body: &[u8],
) -> Result<Command, BodyFault>
    ensures ok { IfOk result (λ c. Asks (asked_by cat.now route.entry body.now) c) }
    ensures readable { IfOk result (λ c. IsReadable cat.now c) }
    ensures err { IfErr result (λ e. ¬ (e ≡ BodyFault.NoMemory) → asked_by cat.now route.entry body.now ≡ Err e) }
    ensures memory { IfErr result (λ e. e ≡ BodyFault.NoMemory → has_body_of route.entry ≡ true) }
{
    let alloc = room.alloc;
    if !has_body(&route) {
        return read_in(alloc, cat, &route, &Value::Null);
    }
    let value = read_object(alloc, body, &mut room.scratch)?;
    read_in(alloc, cat, &route, &value)
}

fn has_body(route: &Route<'_>) -> bool
    ensures { result ≡ has_body_of route.now }
{
    match route {
        Route::Offers
        | Route::Book
        | Route::Reserve
        | Route::Fulfil { .. }
        | Route::AcceptRefund { .. }
        | Route::QuoteExchange
        | Route::AcceptExchange { .. } => true,
        Route::Show { .. }
        | Route::Release { .. }
        | Route::Confirm { .. }
        | Route::QuoteRefund { .. }
        | Route::Places { .. }
        | Route::Sweep => false,
    }
}

// The object that the body is.
fn read_object<'a>(
    alloc: Global,
    body: &'a [u8],
    scratch: &'a mut Scratch,
) -> Result<Value<'a>, BodyFault>
    ensures ok { IfOk result (λ v. IsObject body.now (view v)) }
    ensures err { IfErr result (IsNoObject body.now) }
{
    let value = read_value(alloc, body, scratch)?;
    if value.is_object() {
        Ok(value)
    } else {
        Err(BodyFault::Field {
            name: FieldName::Body,
        })
    }
}

// What the route asks with this value as its body.
fn read_in(
    alloc: Global,
    cat: &Catalogue,
    route: &Route<'_>,
    body: &Value<'_>,
) -> Result<Command, BodyFault>
    ensures ok { IfOk result (λ c. Asks (asked_in cat.now route.now (view body.now)) c) }
    ensures readable { IfOk result (λ c. IsReadable cat.now c) }
    ensures err { IfErr result (λ e. asked_in cat.now route.now (view body.now) ≡ Err e) }
{
    match route {
        Route::Offers => read_offers(alloc, cat, body),
        Route::Book => read_book(body),
        Route::Reserve => read_reserve(cat, body),
        Route::Show { id } => Ok(Command::Show { row: row_of(id) }),
        Route::Release { id } => Ok(Command::Release { row: row_of(id) }),
        Route::Confirm { id } => Ok(Command::Confirm { row: row_of(id) }),
        Route::Fulfil { id } => read_fulfil(id, body),
        Route::QuoteRefund { id } => Ok(Command::QuoteRefund { row: row_of(id) }),
        Route::AcceptRefund { id, offer } => read_accept_refund(id, offer, body),
        Route::QuoteExchange => read_quote_exchange(body),
        Route::AcceptExchange { id } => read_accept_exchange(id, body),
        Route::Places { run, start, end } => read_places(cat, run, start, end),
        Route::Sweep => Ok(Command::Sweep),
    }
}
