//! The SQL of the statements of a change; reg_store_tables `schema.rt` has the tables, of which `office` and `kept` have one row. State letters:
//! `G` good, `R` revoked, `X` expired. An UPDATE with a WHERE finds its rows by a key or an index, but `SET_LAST_LISTED` scans `listed`.

pub(crate) const BEGIN: &str = "BEGIN";

pub(crate) const COMMIT: &str = "COMMIT";

pub(crate) const ROLLBACK: &str = "ROLLBACK";

pub(crate) const EXPIRE_ENDED: &str =
    "UPDATE standing SET state = 'X' WHERE state = 'G' AND not_after < ?1";

pub(crate) const MARK_REVOKED: &str =
    "UPDATE standing SET state = 'R' WHERE serial = ?1 AND state = 'G'";

pub(crate) const SET_LAST: &str = "UPDATE office SET last_at = ?1";

pub(crate) const SET_NAME: &str = "UPDATE office SET name = ?1";

pub(crate) const PUT_SUBSCRIBER: &str = "INSERT INTO subscriber (id, name) VALUES (?1, ?2)";

pub(crate) const PUT_ORDER: &str = "INSERT INTO orders (id, subscriber, days) VALUES (?1, ?2, ?3)";

pub(crate) const PUT_CERT: &str =
    "INSERT INTO cert (serial, order_id, not_before, not_after) VALUES (?1, ?2, ?3, ?4)";

pub(crate) const PUT_LETTER: &str =
    "INSERT INTO standing (serial, not_after, state) VALUES (?1, ?2, 'G')";

pub(crate) const PUT_REQUEST: &str =
    "INSERT INTO request (id, serial, ground, received, declined) VALUES (?1, ?2, ?3, ?4, ?5)";

pub(crate) const SET_DECLINED: &str = "UPDATE request SET declined = 1 WHERE id = ?1";

pub(crate) const PUT_REVOCATION: &str =
    "INSERT INTO revocation (serial, at, reason, request, first_crl) VALUES (?1, ?2, ?3, ?4, ?5)";

pub(crate) const PUT_LISTED: &str =
    "INSERT INTO listed (serial, at, reason, first_crl, not_after, last_listed) VALUES (?1, ?2, ?3, ?4, ?5, NULL)";

pub(crate) const PUT_CRL: &str = "INSERT INTO crl (number, this_update, der) VALUES (?1, ?2, ?3)";

pub(crate) const SET_LAST_LISTED: &str =
    "UPDATE listed SET last_listed = ?1 WHERE last_listed IS NULL AND not_after < ?2";

pub(crate) const CLEAR_STEPS: &str = "DELETE FROM longest";

pub(crate) const PUT_STEP: &str = "INSERT INTO longest (from_at, days) VALUES (?1, ?2)";

pub(crate) const SET_COUNTS: &str = "UPDATE kept SET n_good = ?1, n_revoked = ?2, n_expired = ?3";
