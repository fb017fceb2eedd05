//! Recognizes the version of a register by its schema, creates a register's tables, and checks those of a database before they are used.
#![tactic(auto)]

mod creation;
mod empty_tables;
mod expected_schema;
mod initial_rows;
mod office_rows;
mod read_only_queries;
mod same;
mod schema_check;
mod schemas;
pub mod sql;
mod terms;
mod version_check;
mod versions;

pub use creation::create;
pub use schemas::{is_register, version_of};
pub use version_check::{OlderOffice, examine, open};
pub use versions::Version;
