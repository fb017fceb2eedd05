//! The SQL of the statements, over the tables of `schema.rt`. `last_at` is the last accepted moment, `G` in `standing` the state letter of a good
//! certificate. `STEPS`, `UNDECLINED`, `EARLIEST_ABOVE` and `ENTRIES` scan a table; `UNDECLINED_OF`, `DECLINED_AFTER` and `DECLINED_UP_TO` scan
//! `request` or a part of it. The other SELECTs use a key, an index or a table of one row (`office`, `kept`). `LAST_..`: the number of the last row.

pub(crate) const LAST: &str = "SELECT last_at FROM office";

pub(crate) const ISSUER: &str = "SELECT name, pubkey FROM office";

pub(crate) const TERMS: &str = "SELECT crl_life, ocsp_life, cap FROM office";

pub(crate) const OCSP_HEAD: &str = "SELECT last_at, name, pubkey, ocsp_life FROM office";
/// The steps of the schedule: each a notBefore, and the longest validity in days from this notBefore on.
pub const STEPS: &str = "SELECT from_at, days FROM longest ORDER BY from_at";

pub(crate) const LAST_SUBSCRIBER: &str = "SELECT id FROM subscriber ORDER BY id DESC LIMIT 1";

pub(crate) const LAST_ORDER: &str = "SELECT id FROM orders ORDER BY id DESC LIMIT 1";

pub(crate) const LAST_CERT: &str = "SELECT rowid FROM cert ORDER BY rowid DESC LIMIT 1";

pub(crate) const LAST_REQUEST: &str = "SELECT id FROM request ORDER BY id DESC LIMIT 1";

pub(crate) const LAST_CRL: &str = "SELECT number FROM crl ORDER BY number DESC LIMIT 1";

pub(crate) const LATEST_CRL: &str =
    "SELECT number, this_update FROM crl ORDER BY number DESC LIMIT 1";

pub(crate) const SUBSCRIBER_BY_ID: &str = "SELECT id, name FROM subscriber WHERE id = ?1";

pub(crate) const SUBSCRIBER_BY_NAME: &str = "SELECT id, name FROM subscriber WHERE name = ?1";

pub(crate) const ORDER_BY_ID: &str = "SELECT id, subscriber, days FROM orders WHERE id = ?1";
/// The certificate with a serial number.
pub const CERT_BY_SERIAL: &str =
    "SELECT serial, order_id, not_before, not_after FROM cert WHERE serial = ?1";

pub(crate) const CERT_BY_ORDER: &str =
    "SELECT serial, order_id, not_before, not_after FROM cert WHERE order_id = ?1";

pub(crate) const REQUEST_BY_ID: &str =
    "SELECT id, serial, ground, received, declined FROM request WHERE id = ?1";

pub(crate) const UNDECLINED: &str =
    "SELECT id, serial, ground, received, declined FROM request WHERE declined = 0 ORDER BY id";

pub(crate) const UNDECLINED_OF: &str =
    "SELECT id FROM request WHERE declined = 0 AND serial = ?1 ORDER BY id DESC LIMIT ?2";

pub(crate) const REVOCATION_BY_SERIAL: &str =
    "SELECT serial, at, reason, request, first_crl FROM revocation WHERE serial = ?1";

pub(crate) const EARLIEST_ABOVE: &str =
    "SELECT at FROM revocation WHERE first_crl > ?1 ORDER BY at LIMIT 1";

pub(crate) const CRL_BYTES: &str = "SELECT der FROM crl WHERE number = ?1";

pub(crate) const COUNTS: &str = "SELECT n_good, n_revoked, n_expired FROM kept";

pub(crate) const ENDED_BEFORE: &str =
    "SELECT count(*) FROM standing WHERE state = 'G' AND not_after < ?1";

pub(crate) const LISTED_BY_SERIAL: &str =
    "SELECT first_crl, last_listed FROM listed WHERE serial = ?1";
/// The entries of the CRL with the number `?1`.
pub(crate) const ENTRIES: &str =
    "SELECT serial, at, reason FROM listed WHERE first_crl <= ?1 AND (last_listed IS NULL OR last_listed >= ?1) ORDER BY serial";

pub(crate) const CERTS_AFTER: &str =
    "SELECT serial, order_id, not_before, not_after FROM cert WHERE serial > ?1 ORDER BY serial LIMIT ?2";

pub(crate) const REVOCATIONS_AFTER: &str =
    "SELECT serial, at, reason, request, first_crl FROM revocation WHERE serial > ?1 ORDER BY serial LIMIT ?2";

pub(crate) const CRLS_AFTER: &str =
    "SELECT number, this_update FROM crl WHERE number > ?1 ORDER BY number LIMIT ?2";

pub(crate) const SUBSCRIBERS_ENTERED_AFTER: &str =
    "SELECT id, name FROM subscriber WHERE id > ?1 ORDER BY id LIMIT ?2";

pub(crate) const ORDERS_ENTERED_AFTER: &str =
    "SELECT id, subscriber, days FROM orders WHERE id > ?1 ORDER BY id LIMIT ?2";

pub(crate) const CERTS_ENTERED_AFTER: &str =
    "SELECT serial, order_id, not_before, not_after FROM cert WHERE rowid > ?1 ORDER BY rowid LIMIT ?2";

pub(crate) const REQUESTS_ENTERED_AFTER: &str =
    "SELECT id, serial, ground, received, declined FROM request WHERE id > ?1 ORDER BY id LIMIT ?2";

pub(crate) const REVOCATIONS_ENTERED_AFTER: &str =
    "SELECT serial, at, reason, request, first_crl FROM revocation WHERE rowid > ?1 ORDER BY rowid LIMIT ?2";

pub(crate) const DECLINED_AFTER: &str =
    "SELECT id FROM request WHERE declined = 1 AND id > ?1 ORDER BY id LIMIT ?2";

pub(crate) const DECLINED_UP_TO: &str =
    "SELECT count(*) FROM request WHERE declined = 1 AND id <= ?1";

pub(crate) const SET_COUNTS: &str = "UPDATE kept SET n_good = ?1, n_revoked = ?2, n_expired = ?3";

pub(crate) const PUT_STEP: &str = "INSERT INTO longest (from_at, days) VALUES (?1, ?2)";
