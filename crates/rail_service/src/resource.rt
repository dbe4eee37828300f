//! The paths that are served.
ghost use Rattle.std.specs.Prelude.{◌≡◌, ◌++◌, ℕ, List, Some, IfOk, IfSome, OnOk, codes, true};
ghost use Rattle.rail_service.specs.declared.resource.Resource.TheVariants as names;
ghost use Rattle.rail_service.specs.Paths.{with_path, all_rows, resource_at as resource_named, IsParameter};

use matchit::Router;
use std::alloc::{AllocError, Global};
use std::str;

/// What a path names.
#[derive(Clone, Copy, PartialEq, Eq)]
pub enum Resource {
    Offers,
    Bookings,
    Reservations,
    Booking,
    Fulfillments,
    RefundOffers,
    RefundOffer,
    ExchangeOffers,
    ExchangeOperations,
    Places,
    Sweeps,
}

/// The paths that are served, with the names of their parameters, in the order of their insertion.
const PATHS: [(&str, Resource); 11] = [
    ("/offers", Resource::Offers),
    ("/bookings", Resource::Bookings),
    ("/reservations", Resource::Reservations),
    ("/bookings/{id}", Resource::Booking),
    ("/bookings/{id}/fulfillments", Resource::Fulfillments),
    ("/bookings/{id}/refund-offers", Resource::RefundOffers),
    (
        "/bookings/{id}/refund-offers/{offer}",
        Resource::RefundOffer,
    ),
    ("/exchange-offers", Resource::ExchangeOffers),
    (
        "/bookings/{id}/exchange-operations",
        Resource::ExchangeOperations,
    ),
    ("/runs/{run}/places/{from}/{to}", Resource::Places),
    ("/sweeps", Resource::Sweeps),
];

fn add_path(router: &mut Router<Resource>, path: &str, resource: Resource) -> Result<(), AllocError>
    ensures added { OnOk result (router.new ≡ with_path router.old (path.now, resource)) }
{
    router.insert(path, resource).map_err(|_| AllocError)
}

/// A router that holds each path once.
pub fn start_router(alloc: Global) -> Result<Router<Resource>, AllocError>
    ensures rows { IfOk result (λ router. router ≡ all_rows) }
{
    let mut router = Router::new(alloc);
    for (path, resource) in PATHS {
        add_path(&mut router, path, resource)?;
    }
    Ok(router)
}

fn is_path(path: &[u8], name: &[u8]) -> bool
    ensures { result ≡ true → path.now ≡ name.now }
{
    path == name
}

// What a path without parameters names, where it is one of those that most requests have: no router is asked for them.
fn common_resource(path: &[u8]) -> Option<Resource>
    ensures { IfSome result (λ r. resource_named path.now ≡ Some r) }
{
    if is_path(path, b"/reservations") {
        return Some(Resource::Reservations);
    }
    if is_path(path, b"/bookings") {
        return Some(Resource::Bookings);
    }
    if is_path(path, b"/offers") {
        return Some(Resource::Offers);
    }
    None
}

/// What the path names. No memory is taken.
pub fn resource_at(router: &Router<Resource>, path: &[u8]) -> Option<Resource>
    requires rows { router.now ≡ all_rows }
    ensures found { result ≡ resource_named path.now }
{
    if let Some(resource) = common_resource(path) {
        return Some(resource);
    }
    let Ok(text) = str::from_utf8(path) else {
        return None;
    };
    match router.at(text) {
        Ok(found) => Some(*found.value),
        Err(_) => None,
    }
}

/// What the paths of the table name, whatever texts without a slash stand for their parameters.
pub fn paths_name_resources()
    ensures offers { resource_named (codes "/offers") ≡ Some names.Offers }
    ensures bookings { resource_named (codes "/bookings") ≡ Some names.Bookings }
    ensures reservations { resource_named (codes "/reservations") ≡ Some names.Reservations }
    ensures booking { (id : List ℕ) → IsParameter id → resource_named (codes "/bookings/" ++ id) ≡ Some names.Booking }
    ensures fulfillments { (id : List ℕ) → IsParameter id
        → resource_named (codes "/bookings/" ++ (id ++ codes "/fulfillments")) ≡ Some names.Fulfillments }
    ensures refund_offers { (id : List ℕ) → IsParameter id
        → resource_named (codes "/bookings/" ++ (id ++ codes "/refund-offers")) ≡ Some names.RefundOffers }
    ensures refund_offer { (id offer : List ℕ) → IsParameter id → IsParameter offer
        → resource_named (codes "/bookings/" ++ (id ++ (codes "/refund-offers/" ++ offer))) ≡ Some names.RefundOffer }
    ensures exchange_offers { resource_named (codes "/exchange-offers") ≡ Some names.ExchangeOffers }
    ensures exchange_operations { (id : List ℕ) → IsParameter id
        → resource_named (codes "/bookings/" ++ (id ++ codes "/exchange-operations")) ≡ Some names.ExchangeOperations }
    ensures places { (run from to : List ℕ) → IsParameter run → IsParameter from → IsParameter to
        → resource_named (codes "/runs/" ++ (run ++ (codes "/places/" ++ (from ++ (codes "/" ++ to)))))
        ≡ Some names.Places }
    ensures sweeps { resource_named (codes "/sweeps") ≡ Some names.Sweeps }
{}
