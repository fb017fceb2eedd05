//! The SQL queries of an audit. Rows come in the order of rowids; some queries read only rowids. `reg_store_tables` has the queries for the issuer
//! and the bytes of CRLs. `office` has one row: version, issuer, policy and last accepted moment. `longest` is the schedule of longest validities.
//! Derived: `standing` (each certificate's state letter), `kept` (one row: their counts), `listed` (CRL entries). `one`: the rowid of the only row.

ghost use Rattle.std.specs.Prelude.{◌≡◌};
ghost use Rattle.reg_audit.specs.ReadQueries.{sql_of};

/// The policy's most rows of a table and the last accepted moment, with which the rows of other tables are checked.
pub(crate) const OFFICE: &str = "SELECT cap, last_at FROM office";

pub(crate) const SUBSCRIBERS: &str = "SELECT id, name FROM subscriber ORDER BY id";

pub(crate) const ORDERS: &str = "SELECT id, subscriber, days FROM orders ORDER BY id";

pub(crate) const CERTIFICATES: &str =
    "SELECT serial, order_id, not_before, not_after FROM cert ORDER BY rowid";

pub(crate) const REQUESTS: &str =
    "SELECT id, serial, ground, received, declined FROM request ORDER BY id";

pub(crate) const REVOCATIONS: &str =
    "SELECT serial, at, reason, request, first_crl FROM revocation ORDER BY rowid";

pub(crate) const CRLS: &str = "SELECT number, this_update FROM crl ORDER BY number";

pub(crate) const STANDINGS: &str = "SELECT serial, not_after, state FROM standing ORDER BY rowid";

pub(crate) const COUNTS: &str = "SELECT n_good, n_revoked, n_expired FROM kept";

pub(crate) const LISTINGS: &str =
    "SELECT serial, at, reason, first_crl, not_after, last_listed FROM listed ORDER BY rowid";

pub(crate) const CERTIFICATE_ROWIDS: &str = "SELECT rowid FROM cert ORDER BY rowid";

pub(crate) const REVOCATION_ROWIDS: &str = "SELECT rowid FROM revocation ORDER BY rowid";

pub(crate) const STANDING_ROWIDS: &str = "SELECT rowid FROM standing ORDER BY rowid";

pub(crate) const COUNTS_ROWID: &str = "SELECT one FROM kept ORDER BY one";

pub(crate) const LISTING_ROWIDS: &str = "SELECT rowid FROM listed ORDER BY rowid";

/// All numbers of `office`: its rowid (`one`), version, policy, last accepted moment, and the longest validity at the register's creation (`days`).
pub(crate) const TERMS: &str =
    "SELECT one, version, crl_life, ocsp_life, cap, last_at, days FROM office ORDER BY one";

pub(crate) const STEPS: &str = "SELECT from_at, days FROM longest ORDER BY from_at";

#[derive(Clone, Copy)]
pub(crate) enum AuditQuery {
    Office,
    Subscribers,
    Orders,
    Certificates,
    Requests,
    Revocations,
    Crls,
    Standings,
    Counts,
    Listings,
    CertificateRowids,
    RevocationRowids,
    StandingRowids,
    CountsRowid,
    ListingRowids,
    Terms,
    Steps,
}

pub(crate) fn text(query: AuditQuery) -> &'static str
    ensures { result.now ≡ sql_of query }
{
    match query {
        AuditQuery::Office => OFFICE,
        AuditQuery::Subscribers => SUBSCRIBERS,
        AuditQuery::Orders => ORDERS,
        AuditQuery::Certificates => CERTIFICATES,
        AuditQuery::Requests => REQUESTS,
        AuditQuery::Revocations => REVOCATIONS,
        AuditQuery::Crls => CRLS,
        AuditQuery::Standings => STANDINGS,
        AuditQuery::Counts => COUNTS,
        AuditQuery::Listings => LISTINGS,
        AuditQuery::CertificateRowids => CERTIFICATE_ROWIDS,
        AuditQuery::RevocationRowids => REVOCATION_ROWIDS,
        AuditQuery::StandingRowids => STANDING_ROWIDS,
        AuditQuery::CountsRowid => COUNTS_ROWID,
        AuditQuery::ListingRowids => LISTING_ROWIDS,
        AuditQuery::Terms => TERMS,
        AuditQuery::Steps => STEPS,
    }
}
