//! The status codes with which the desk answers (RFC 9110 15).

pub const OK: u16 = 200;

/// 400: the desk can't read the head, the target, a value in the path or in the query, or the JSON in the body.
pub const BAD_REQUEST: u16 = 400;
/// 404: no route has the path, or there is no such CRL.
pub const NOT_FOUND: u16 = 404;

/// 405: the route has another method, which Allow names.
pub const METHOD_NOT_ALLOWED: u16 = 405;
/// 409: the register refuses the request; or, for the changes feed, the register's history doesn't have the client's positions (`diverged`).
pub const CONFLICT: u16 = 409;
/// 411: a POST has no Content-Length, or has a Transfer-Encoding.
pub const LENGTH_REQUIRED: u16 = 411;
/// 413: the body is longer than 65,536 bytes.
pub const PAYLOAD_TOO_LARGE: u16 = 413;
/// 429: too many requests for revocation in a minute, or open for one serial number (RFC 6585 4). Retry-After is 60 seconds.
pub const TOO_MANY_REQUESTS: u16 = 429;
/// 431: the head is longer than 8,192 bytes, or has more than 64 fields (RFC 6585 5).
pub const HEADERS_TOO_LARGE: u16 = 431;

/// 500: the desk is out of memory, or its store failed.
pub const INTERNAL_SERVER_ERROR: u16 = 500;
/// 503: the desk isn't healthy (`/health`); or takes no requests for revocation: the clock is too far ahead, or under a tenth of their table is free.
pub const SERVICE_UNAVAILABLE: u16 = 503;
