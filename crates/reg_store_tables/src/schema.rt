//! The SQL statements that create a register's tables and indexes, in this order. All tables are STRICT. A moment is in whole seconds since
//! 1970-01-01T00:00:00Z. A serial number is 20 bytes, big-endian, so that SQL sorts it by its value.

/// One row: the version, the issuer (`name`, `pubkey`: docs/RULES.md, "The tables of a file"), limits of the policy, and the last accepted moment.
/// Lives: seconds to nextUpdate. `cap`: the most rows of a table. `days`: the longest validity at creation (in version 3, only audits read it).
pub const OFFICE: &str =
    "CREATE TABLE office (one INTEGER PRIMARY KEY CHECK (one = 1), version INTEGER NOT NULL, name BLOB NOT NULL, pubkey BLOB NOT NULL, days INTEGER NOT NULL, crl_life INTEGER NOT NULL, ocsp_life INTEGER NOT NULL, cap INTEGER NOT NULL, last_at INTEGER NOT NULL) STRICT";

pub const SUBSCRIBER: &str =
    "CREATE TABLE subscriber (id INTEGER PRIMARY KEY, name TEXT NOT NULL UNIQUE) STRICT";

/// The orders, each for one certificate; `days` is the longest validity that was ordered.
pub const ORDERS: &str =
    "CREATE TABLE orders (id INTEGER PRIMARY KEY, subscriber INTEGER NOT NULL REFERENCES subscriber (id), days INTEGER NOT NULL) STRICT";

/// The certificates: serial number (RFC 5280 4.1.2.2), the order that it fills, notBefore and notAfter (4.1.2.5).
pub const CERT: &str =
    "CREATE TABLE cert (serial BLOB NOT NULL PRIMARY KEY, order_id INTEGER NOT NULL UNIQUE REFERENCES orders (id), not_before INTEGER NOT NULL, not_after INTEGER NOT NULL) STRICT";

/// The requests for revocation: `ground` (why it is requested) is an index in `reg_core::Ground` from 1 on, `received` a moment, `declined` 0 or 1.
pub const REQUEST: &str =
    "CREATE TABLE request (id INTEGER PRIMARY KEY, serial BLOB NOT NULL REFERENCES cert (serial), ground INTEGER NOT NULL, received INTEGER NOT NULL, declined INTEGER NOT NULL) STRICT";

/// The revocations. Each has its moment (`at`), reasonCode (RFC 5280 5.3.1), request, and the number of the first CRL that lists it (`first_crl`).
pub const REVOCATION: &str =
    "CREATE TABLE revocation (serial BLOB NOT NULL PRIMARY KEY REFERENCES cert (serial), at INTEGER NOT NULL, reason INTEGER NOT NULL, request INTEGER NOT NULL UNIQUE REFERENCES request (id), first_crl INTEGER NOT NULL) STRICT";

/// The issued CRLs: number (RFC 5280 5.2.3), thisUpdate (5.1.2.4), and the whole CRL in DER.
pub const CRL: &str =
    "CREATE TABLE crl (number INTEGER PRIMARY KEY, this_update INTEGER NOT NULL, der BLOB NOT NULL) STRICT";

/// The state letter of each certificate at the last accepted moment: `G` (good), `R` (revoked) or `X` (expired).
pub const STANDING: &str =
    "CREATE TABLE standing (serial BLOB NOT NULL PRIMARY KEY REFERENCES cert (serial), not_after INTEGER NOT NULL, state TEXT NOT NULL) STRICT";

/// One row: how many certificates have each state letter of `standing`.
pub const KEPT: &str =
    "CREATE TABLE kept (one INTEGER PRIMARY KEY CHECK (one = 1), n_good INTEGER NOT NULL, n_revoked INTEGER NOT NULL, n_expired INTEGER NOT NULL) STRICT";

/// The CRL entry of each revocation, its certificate's notAfter, and the numbers of the first and last CRL that list it (last: NULL until issued).
pub const LISTED: &str =
    "CREATE TABLE listed (serial BLOB NOT NULL PRIMARY KEY REFERENCES revocation (serial), at INTEGER NOT NULL, reason INTEGER NOT NULL, first_crl INTEGER NOT NULL, not_after INTEGER NOT NULL, last_listed INTEGER) STRICT";

/// The steps of the schedule: a notBefore, and the longest validity in days from this notBefore on.
pub const LONGEST: &str =
    "CREATE TABLE longest (from_at INTEGER PRIMARY KEY, days INTEGER NOT NULL) STRICT";

/// The index by which CRLs are found without reading their bytes.
pub const CRL_AT: &str = "CREATE INDEX crl_at ON crl (number, this_update)";

/// The index by which certificates with the letter `G` that are past notAfter are found.
pub const STANDING_DUE: &str = "CREATE INDEX standing_due ON standing (state, not_after)";
