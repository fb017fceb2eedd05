//! Summaries of a register for the front ends: `RegisterSummary` of all of it, `RequestLoad` of its requests for revocation.

use reg_core::{CrlRow, Moment};

/// `last`: the moment of the last accepted command, or [`Moment::EPOCH`] if there is none. `latest`: the CRL that was issued last, without its bytes.
/// `crl_life`: the seconds from thisUpdate to nextUpdate of a CRL. `cap`: the most rows that each table of [`TableSizes`] may have.
#[derive(Clone, Copy, PartialEq, Eq)]
pub struct RegisterSummary {
    pub last: Moment,
    pub latest: Option<CrlRow>,
    pub crl_life: u64,
    pub cap: u64,
    pub rows: TableSizes,
}

/// How many rows each table with a cap has.
#[derive(Clone, Copy, PartialEq, Eq)]
pub struct TableSizes {
    pub subscribers: u64,
    pub orders: u64,
    pub certificates: u64,
    pub requests: u64,
    pub crls: u64,
}

/// `last` and `cap` are as in [`RegisterSummary`]. `requests`: how many requests the requests table has, open or not. `waiting`: how many of them are
/// open and for one serial number, counted up to the limit `most` of `Office::request_load`.
#[derive(Clone, Copy, PartialEq, Eq)]
pub struct RequestLoad {
    pub last: Moment,
    pub cap: u64,
    pub requests: u64,
    pub waiting: u64,
}
