//! Whether a request asks for anything, and what.
ghost use Rattle.std.specs.Prelude.{◌≡◌, IfOk, Ok, Err, option_map, IfSome, length};
ghost use Rattle.http_wire.specs.Pieces.{request_text, ArePiecesWithin};
ghost use Rattle.osdm_json.specs.Readable.{IsReadable};
ghost use Rattle.rail_service.specs.Paths.{all_rows};
ghost use Rattle.rail_service.specs.Serving.{retailer_of as retailer_in, first_after as first_then};
ghost use Rattle.rail_service.specs.Serving.{admitted as admitted_of, ReadsAs, HasFound, AsksSomewhere};

use crate::reach::name_of;
use crate::resource::Resource;
use crate::routing::find_route;
use catalogue_contents::Catalogue;
use http_wire::{Intake, Request};
use matchit::Router;
use osdm_json::{BodyRoom, Command, Problem, Route, read_command_in};
use rail_ids::RetailerNo;
use rail_io::Clock;

/// The retailer of the request's key, if the catalogue has it.
pub fn retailer_of(cat: &Catalogue, intake: &Intake, request: &Request) -> Option<RetailerNo>
    requires given { ArePiecesWithin (length intake.now.taken) request.now }
    ensures value { result ≡ retailer_in cat.now (request_text intake.now.taken request.now) }
{
    let key = request.key?;
    cat.retailer_of(intake.part(key))
}

/// The retailer of the connection's first known key, after one request more.
pub fn first_after(first: Option<RetailerNo>, retailer: Option<RetailerNo>) -> Option<RetailerNo>
    ensures value { result ≡ first_then first retailer }
{
    match first {
        Some(first) => Some(first),
        None => retailer,
    }
}

/// Whether the retailer of a key may ask on a connection with this first one.
pub fn admit(first: Option<RetailerNo>, retailer: Option<RetailerNo>) -> Result<RetailerNo, Problem>
    ensures value { result ≡ admitted_of first retailer }
{
    match (retailer, first) {
        (None, _) => Err(Problem::NoRetailer),
        (Some(retailer), Some(first)) if first.0 != retailer.0 => Err(Problem::OtherRetailer),
        (Some(retailer), _) => Ok(retailer),
    }
}

/// The command that the route asks with this body.
fn read(
    room: &mut BodyRoom,
    cat: &Catalogue,
    route: Route<'_>,
    body: &[u8],
) -> Result<Command, Problem>
    ensures reads { ReadsAs cat.now route.entry body.now result }
    ensures readable { IfOk result (λ c. IsReadable cat.now c) }
{
    match read_command_in(room, cat, route, body) {
        Ok(command) => Ok(command),
        Err(fault) => Err(fault.problem()),
    }
}

/// The route of a request, or why it has none. No memory is taken.
#[inline(always)]
fn route_of<'i>(
    router: &Router<Resource>,
    intake: &'i Intake,
    request: &Request,
) -> Result<Route<'i>, Problem>
    requires rows { router.now ≡ all_rows }
    requires given { ArePiecesWithin (length intake.now.taken) request.now }
    ensures found { HasFound (request_text intake.now.taken request.now) result }
{
    find_route(
        router,
        intake.part(request.method),
        intake.part(request.path),
    )
}

/// What a request asks for, where its retailer may ask: a command, or why it asks for none. The clock is told of its
/// route first. No memory is taken before a body is read.
// It stands apart, so that room for a route is cleared only here.
#[inline(never)]
pub fn asked<C: Clock>(
    clock: &mut C,
    room: &mut BodyRoom,
    cat: &Catalogue,
    router: &Router<Resource>,
    intake: &Intake,
    request: &Request,
) -> Result<Command, Problem>
    requires rows { router.now ≡ all_rows }
    requires given { ArePiecesWithin (length intake.now.taken) request.now }
    ensures same { C.told clock.new ≡ C.told clock.old }
    ensures asks { AsksSomewhere cat.now (request_text intake.now.taken request.now) result }
    ensures readable { IfOk result (λ c. IsReadable cat.now c) }
{
    let route = route_of(router, intake, request)?;
    clock.arrive(name_of(route));
    read(room, cat, route, intake.part(request.body))
}

/// Tells the clock of the route of a request that is refused for its key, where it has one.
#[cold]
#[inline(never)]
pub fn hear_refused<C: Clock>(
    clock: &mut C,
    router: &Router<Resource>,
    intake: &Intake,
    request: &Request,
)
    requires rows { router.now ≡ all_rows }
    requires given { ArePiecesWithin (length intake.now.taken) request.now }
    ensures same { C.told clock.new ≡ C.told clock.old }
{
    if let Ok(route) = route_of(router, intake, request) {
        clock.arrive(name_of(route));
    }
}
