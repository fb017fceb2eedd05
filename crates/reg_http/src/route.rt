//! The routes of the desk, by which it dispatches and counts HTTP requests.

ghost use Rattle.std.specs.Prelude.{◌≡◌, ◌<◌, IfSome, length};
ghost use Rattle.std.specs.List.{position};
ghost use Rattle.reg_http.specs.RoutedRequests.{path_of as target_path};
ghost use Rattle.reg_http.specs.RouteNames.{ends_path as ends_a_path, prefix_to, is_space, named_path, named_route, route_at as route_of_path};

/// A route. The variable part of its path, such as the serial number, is not kept.
#[derive(Clone, Copy, PartialEq, Eq)]
pub enum Route {
    Ocsp,
    /// `/ocsp/{*rest}`: an OCSP request in the path, in base64, which may have slashes.
    OcspRest,
    Crl,
    CrlNumber,
    Status,
    Counts,
    /// `/requests`: requests for revocation.
    Requests,
    /// `/list/{word}`: only `desk open` has this route and the next three.
    List,
    Health,
    Metrics,
    Changes,
    Other,
}

impl Route {
    /// The route of a target (RFC 9112 3.2.1). A variable part is not checked: `/crl/` is [`Route::CrlNumber`], though it is answered with 404.
    pub fn of(target: &str) -> Route
        ensures { result ≡ route_of_path (target_path target.now) }
    {
        route_at(path_of(target).as_bytes())
    }

    /// The route of the path after the first space in a request's bytes. A request whose head is refused is counted under this route.
    pub fn named_in(request: &[u8]) -> Route
        ensures { result ≡ named_route request.now }
    {
        route_at(path_in(request))
    }
}

/// The path of a target: all before the first `?`.
pub(crate) fn path_of(target: &str) -> &str
    ensures { result.now ≡ target_path target.now }
{
    match target.split_once('?') {
        Some((path, _)) => path,
        None => target,
    }
}

/// The path after the first space, up to a `?`, the next space, or a CR or LF. In a valid head, it is the path of the request line (RFC 9112 3).
fn path_in(request: &[u8]) -> &[u8]
    ensures { result.now ≡ named_path request.now }
{
    match space_in(request) {
        Some(at) => prefix_of_path(&request[at + 1..]),
        None => &request[..0],
    }
}

fn space_in(text: &[u8]) -> Option<usize>
    ensures place { result ≡ position is_space text.now }
    ensures within { IfSome result (λ at. at < length text.now) }
{
    text.iter().position(|byte| *byte == b' ')
}

fn prefix_of_path(text: &[u8]) -> &[u8]
    ensures { result.now ≡ prefix_to text.now }
{
    match path_end(text) {
        Some(end) => &text[..end],
        None => text,
    }
}

fn path_end(text: &[u8]) -> Option<usize>
    ensures place { result ≡ position ends_a_path text.now }
    ensures within { IfSome result (λ at. at < length text.now) }
{
    text.iter().position(|byte| ends_path(*byte))
}

fn ends_path(byte: u8) -> bool
    ensures { result ≡ ends_a_path byte }
{
    byte == b' ' || byte == b'?' || byte == b'\r' || byte == b'\n'
}

#[tactic(auto, unfolding(crate::specs::RouteNames::route_at))]
fn route_at(path: &[u8]) -> Route
    ensures { result ≡ route_of_path path.now }
{
    match path {
        _ if path == b"/ocsp".as_slice() => Route::Ocsp,
        _ if path.starts_with(b"/ocsp/") => Route::OcspRest,
        _ if path == b"/crl".as_slice() => Route::Crl,
        _ if path.starts_with(b"/crl/") => Route::CrlNumber,
        _ if path.starts_with(b"/status/") => Route::Status,
        _ if path == b"/counts".as_slice() => Route::Counts,
        _ if path == b"/requests".as_slice() => Route::Requests,
        _ if path.starts_with(b"/list/") => Route::List,
        _ if path == b"/health".as_slice() => Route::Health,
        _ if path == b"/metrics".as_slice() => Route::Metrics,
        _ if path == b"/changes".as_slice() => Route::Changes,
        _ => Route::Other,
    }
}
