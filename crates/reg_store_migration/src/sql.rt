//! The SQL of the statements of a migration. reg_store_tables `schema.rt` says what each table holds; in the only row of `kept`, `one` is 1.

pub const CLEAR_STANDING: &str = "DELETE FROM standing";

pub const CLEAR_KEPT: &str = "DELETE FROM kept";

pub const CLEAR_LISTED: &str = "DELETE FROM listed";

pub const SET_VERSION: &str = "UPDATE office SET version = 3";

pub const PUT_COUNTS: &str =
    "INSERT INTO kept (one, n_good, n_revoked, n_expired) VALUES (1, 0, 0, 0)";

/// Each certificate's letter: `R` revoked, else `X` if notAfter is before `?1` (last accepted moment), else `G`. Sorted: the index grows at its end.
pub const FILL_LETTERS: &str =
    "INSERT INTO standing (serial, not_after, state) SELECT serial, not_after, CASE WHEN EXISTS (SELECT 1 FROM revocation WHERE revocation.serial = cert.serial) THEN 'R' WHEN not_after < ?1 THEN 'X' ELSE 'G' END FROM cert ORDER BY serial";

pub const COUNT_LETTER: &str = "SELECT count(*) FROM standing WHERE state = ?1";

pub const REVOCATIONS: &str =
    "SELECT serial, at, reason, request, first_crl FROM revocation ORDER BY rowid";

pub const CRLS: &str = "SELECT number, this_update FROM crl ORDER BY number";

pub const PUT_LISTING: &str =
    "INSERT INTO listed (serial, at, reason, first_crl, not_after, last_listed) VALUES (?1, ?2, ?3, ?4, ?5, ?6)";
