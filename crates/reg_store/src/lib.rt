//! The register in an SQL database: the store that the layers above use.
#![tactic(auto)]

mod changes;
mod create_and_open;
pub mod laws;
mod store;

pub use create_and_open::Unopened;
pub use reg_store_tables::{DatabaseFault, StoreFault, Table, Tables};
pub use store::Store;
