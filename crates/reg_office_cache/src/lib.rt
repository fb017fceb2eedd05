//! An office with a cache: `overdue` and the count of open requests read only the requests and revocations since the last of these queries.
#![tactic(auto)]

mod caching_office;
mod undecided;

pub use caching_office::CachingOffice;
