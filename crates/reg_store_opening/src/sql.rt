//! The SQL that fills and checks the table `office`. `name` is the issuer's Name and key identifiers, `pubkey` its key; the lives are in seconds;
//! `days` is the longest validity in days, `cap` the most rows of a table, and `last_at` the last accepted moment in seconds since 1970.

/// Inserts the one row of the table `office`, with version 3 and `last_at` 0.
pub const PUT_OFFICE: &str =
    "INSERT INTO office (one, version, name, pubkey, days, crl_life, ocsp_life, cap, last_at) VALUES (1, 3, ?1, ?2, ?3, ?4, ?5, ?6, 0)";

pub const VERSION: &str = "SELECT version FROM office";

/// What an opening of version 3 checks after the version. Only an audit also reads `days` there.
pub const OFFICE: &str = "SELECT name, pubkey, crl_life, ocsp_life, cap, last_at FROM office";

/// What an opening checks in an older version. `days` is for its schedule, which has one step: this longest validity from 1970 on.
pub const OLDER_OFFICE: &str =
    "SELECT name, pubkey, crl_life, ocsp_life, cap, last_at, days FROM office";
