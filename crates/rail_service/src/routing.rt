//! The route of a request.
ghost use Rattle.std.specs.Prelude.{◌≡◌, ◌≢◌, ◌⊎◌, IfSome, IfNone, codes};
ghost use Rattle.osdm_json.specs.declared.route.Route.{Route};
ghost use Rattle.osdm_json.specs.declared.route.Route.TheVariants as route;
ghost use Rattle.rail_service.specs.Paths.{all_rows};
ghost use Rattle.rail_service.specs.Routes.{RoutesTo, FindsRoute};

use crate::parts::part;
use crate::resource::{Resource, resource_at};
use matchit::Router;
use osdm_json::Route;
use osdm_texts::Problem;

/// The route, where the method has the name.
fn on<'p>(method: &[u8], name: &[u8], route: Route<'p>) -> Option<Route<'p>>
    ensures some { IfSome result (λ r. (r ≡ route.entry) × (method.now ≡ name.now)) }
    ensures none { IfNone result (method.now ≢ name.now) }
{
    if method == name { Some(route) } else { None }
}

/// The route that the method (RFC 9110) has at this resource, with the parameters of the path.
fn route_to<'p>(resource: Resource, method: &[u8], path: &'p [u8]) -> Option<Route<'p>>
    ensures some { IfSome result (λ r. RoutesTo resource method.now path.now r) }
    ensures none { IfNone result ((r : Route) → RoutesTo resource method.now path.now r → ⊥) }
{
    match resource {
        Resource::Offers => on(method, b"POST", Route::Offers),
        Resource::Bookings => on(method, b"POST", Route::Book),
        Resource::Reservations => on(method, b"POST", Route::Reserve),
        Resource::Booking => booking_route(method, part(path, 2)),
        Resource::Fulfillments => fulfillments_route(method, part(path, 2)),
        Resource::RefundOffers => on(method, b"POST", Route::QuoteRefund { id: part(path, 2) }),
        Resource::RefundOffer => {
            let id = part(path, 2);
            let offer = part(path, 4);
            on(method, b"PATCH", Route::AcceptRefund { id, offer })
        }
        Resource::ExchangeOffers => on(method, b"POST", Route::QuoteExchange),
        Resource::ExchangeOperations => on(
            method,
            b"POST",
            Route::AcceptExchange { id: part(path, 2) },
        ),
        Resource::Places => {
            let run = part(path, 2);
            let start = part(path, 4);
            let end = part(path, 5);
            on(method, b"GET", Route::Places { run, start, end })
        }
        Resource::Sweeps => on(method, b"POST", Route::Sweep),
    }
}

fn booking_route<'p>(method: &[u8], id: &'p [u8]) -> Option<Route<'p>>
    ensures some { IfSome result (λ r. ((method.now ≡ codes "GET") × (r ≡ route.Show id.entry))
        ⊎ ((method.now ≡ codes "DELETE") × (r ≡ route.Release id.entry))) }
    ensures none { IfNone result ((method.now ≢ codes "GET") × (method.now ≢ codes "DELETE")) }
{
    if method == b"GET".as_slice() {
        return Some(Route::Show { id });
    }
    on(method, b"DELETE", Route::Release { id })
}

fn fulfillments_route<'p>(method: &[u8], id: &'p [u8]) -> Option<Route<'p>>
    ensures some { IfSome result (λ r. ((method.now ≡ codes "POST") × (r ≡ route.Confirm id.entry))
        ⊎ ((method.now ≡ codes "PATCH") × (r ≡ route.Fulfil id.entry))) }
    ensures none { IfNone result ((method.now ≢ codes "POST") × (method.now ≢ codes "PATCH")) }
{
    if method == b"POST".as_slice() {
        return Some(Route::Confirm { id });
    }
    on(method, b"PATCH", Route::Fulfil { id })
}

/// The route of a method and a path, or why there is none. No memory is taken.
pub fn find_route<'p>(
    router: &Router<Resource>,
    method: &[u8],
    path: &'p [u8],
) -> Result<Route<'p>, Problem>
    requires rows { router.now ≡ all_rows }
    ensures { FindsRoute method.now path.now result }
{
    let Some(resource) = resource_at(router, path) else {
        return Err(Problem::NoRoute);
    };
    match route_to(resource, method, path) {
        Some(route) => Ok(route),
        None => Err(Problem::NoMethod),
    }
}
