//! The register in SQL tables: their schema, how a row is read, the look-ups, and statements that write inside a transaction.
#![tactic(auto)]

mod certificates;
mod crls;
mod entry_order;
mod fault;
mod listed;
mod office;
mod orders;
mod overdue;
mod pages;
mod read_statements;
mod requests;
mod revocations;
pub mod rows;
mod schedule_rows;
pub mod schema;
mod sizes;
pub mod sql;
pub mod sql_values;
mod status_counts;
mod subscribers;
mod tables;
pub mod write_statements;

pub use crls::crl;
pub use entry_order::Entered;
pub use fault::{DatabaseFault, RowFault, StoreFault};
pub use office::{issuer, policy};
pub use schedule_rows::put_schedule_steps;
pub use sizes::Table;
pub use status_counts::stored_counts_at_last;
pub use tables::Tables;
pub use write_statements::set_counts;
