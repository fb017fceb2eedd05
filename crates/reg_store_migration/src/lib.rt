//! Migrates a register's file of an older version to the program's version.
#![tactic(auto)]

mod derived_listings;
mod derived_tables;
mod initial_rows;
mod migration;
pub mod missing_tables;
mod record_reader;
pub mod sql;
mod status_counts;
mod version;

pub use initial_rows::put_counts;
pub use migration::migrate;
pub use version::OlderVersion;
