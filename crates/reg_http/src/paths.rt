//! Finds, with a router, the route by which `begin` answers a request, and the path's variable part. To dispatch and count, the desk uses the route
//! [`Route::of`]. There, `/health` (which only `desk open` has) is `Health`, and `/crl/` (no number) is `CrlNumber`; here, both are `Other`.

ghost use Rattle.std.specs.Prelude.{◌≡◌, ◌≤◌, ◌<◌, [], All, length, codes, IfOk, IsTrue, OnOk, unwrap_or};
ghost use Rattle.matchit.specs.Router.{map_key, rename};
ghost use Rattle.matchit.specs.Seek.{first};
ghost use Rattle.reg_http.specs.Routes.{IsRoute, prefix_length, route, route_seen, rows_for, table};
ghost use Rattle.reg_http.specs.declared.route.Route.TheVariants.{Other};

use crate::route::Route;
use matchit::{InsertError, Router};
use reg_core::Memory;
use std::alloc::Global;

/// The route of a path, and the variable part of the path (`rest`), such as the serial number; empty if the route has none.
#[derive(Clone, Copy)]
pub(crate) struct Found<'p> {
    pub(crate) route: Route,
    pub(crate) rest: &'p [u8],
}

fn put_routes(router: &mut Router<Route>) -> Result<(), InsertError>
    requires { router.old ≡ [] }
    ensures { OnOk result (rename (λ route. route.value) router.new ≡ rows_for table) }
{
    router.insert("/counts", Route::Counts)?;
    router.insert("/crl", Route::Crl)?;
    router.insert("/crl/{n}", Route::CrlNumber)?;
    router.insert("/ocsp", Route::Ocsp)?;
    router.insert("/ocsp/{*rest}", Route::OcspRest)?;
    router.insert("/requests", Route::Requests)?;
    router.insert("/status/{serial}", Route::Status)?;
    Ok(())
}

fn router(alloc: Global) -> Result<Router<Route>, Memory>
    ensures { IfOk result (λ router. rename (λ route. route.value) router ≡ rows_for table) }
{
    let mut router = Router::new(alloc);
    match put_routes(&mut router) {
        Ok(()) => Ok(router),
        // These routes are valid and have no conflict, so `insert` fails only if out of memory.
        Err(_) => Err(Memory),
    }
}

fn matched_route(router: &Router<Route>, path: &str) -> Route
    ensures { result ≡ unwrap_or (map_key (λ route. route.value) (first router.now path.now)) Other }
{
    match router.at(path) {
        Ok(found) => *found.value,
        Err(_) => Route::Other,
    }
}

fn is_ocsp(path: &str) -> bool
    ensures { IsTrue result → path.now ≡ codes "/ocsp" }
{
    path.as_bytes() == b"/ocsp".as_slice()
}

fn route_for_path(alloc: Global, path: &str) -> Result<Route, Memory>
    requires { All (λ byte. byte < 256) path.now }
    ensures { IfOk result (IsRoute path.now) }
{
    // Most requests have this path (`POST /ocsp`), so no router is built for it.
    if is_ocsp(path) {
        return Ok(Route::Ocsp);
    }
    match router(alloc) {
        Ok(router) => Ok(matched_route(&router, path)),
        Err(fault) => Err(fault),
    }
}

/// How many bytes of the path come before its variable part; all of them if the route has none.
fn prefix_length(route: Route, path: &[u8]) -> usize
    ensures { result ≡ prefix_length route path.now }
{
    match route {
        Route::OcspRest => b"/ocsp/".len(),
        Route::CrlNumber => b"/crl/".len(),
        Route::Status => b"/status/".len(),
        _ => path.len(),
    }
}

pub(crate) fn find_route(alloc: Global, path: &str) -> Result<Found<'_>, Memory>
    ensures { IfOk result (λ found. route_seen found ≡ route path.entry.now) }
{
    let route = route_for_path(alloc, path)?;
    let bytes = path.as_bytes();
    Ok(Found {
        route,
        rest: &bytes[prefix_length(route, bytes)..],
    })
}
