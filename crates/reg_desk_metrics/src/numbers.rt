//! Numbers for `/health` and `/metrics` other than the counters of exchanges, lines and signatures (`Tally`).

use reg_core::{Counts, Fault, Moment};
use reg_office_api::RegisterSummary;

/// A register's numbers at a moment: how many certificates have each status (`counts`), and when the next CRL is `due`; `None` if it is due at once.
#[derive(Clone, Copy, PartialEq, Eq)]
pub struct Numbers {
    pub counts: Counts,
    pub due: Option<Moment>,
    /// How many rows each table has, and the most that it may have (the cap); the latest CRL; how long a CRL is valid; the last command's moment.
    pub summary: RegisterSummary,
}

/// The register's numbers, or why they can't be read.
pub type NumbersResult = Result<Numbers, Fault>;

/// Counts of the register's requests for revocation at the moment `at`. Counting reads all requests, so the desk uses each count for a minute.
#[derive(Clone, Copy, PartialEq, Eq)]
pub struct Requests {
    pub at: Moment,
    /// How many are open (not declined, and the certificate is good), and how many of these are past their deadline (`overdue`).
    pub waiting: u64,
    pub overdue: u64,
}

/// How an open desk signs CRLs: by the signer with the issuer's key; with a placeholder digest; or not at all, if its only signer is a responder's.
#[derive(Clone, Copy, PartialEq, Eq)]
pub enum CrlSigning {
    Key,
    Digest,
    NoSigner,
}

/// A CRL that the desk read. If it has a placeholder digest instead of a signature (`is_unsigned`), and a key signs now, the next CRL is due at once.
#[derive(Clone, Copy, PartialEq, Eq)]
pub struct ReadCrl {
    pub number: u64,
    pub is_unsigned: bool,
}

/// How many connections are open, at the port and at the control socket; and how many were accepted (at the port) or lost since the desk was opened.
#[derive(Clone, Copy, PartialEq, Eq)]
pub struct ConnectionTotals {
    pub open_http: u64,
    pub open_control: u64,
    pub accepted: u64,
    /// Lost connections, by `ConnectionFault` of `reg_desk_server`: broken; timed out (`late`); evicted; out of memory.
    pub broken: u64,
    pub late: u64,
    pub evicted: u64,
    pub memory: u64,
}

impl ConnectionTotals {
    pub fn nothing() -> ConnectionTotals {
        ConnectionTotals {
            open_http: 0,
            open_control: 0,
            accepted: 0,
            broken: 0,
            late: 0,
            evicted: 0,
            memory: 0,
        }
    }
}
