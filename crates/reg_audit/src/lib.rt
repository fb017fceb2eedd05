//! Reads all tables of a register and audits them.
#![tactic(auto)]

mod ascending;
mod audit_result;
mod check_fault;
mod complete;
mod crls;
mod days;
mod derived_rows;
mod fault;
mod index;
mod observer;
mod read_rows;
mod relations;
mod rows;
mod single_rows;
mod sql;
mod sql_values;
mod stored;
mod tables;
mod typed;
mod whole_audit;
mod whole_check;
mod whole_tables;

pub use audit_result::judge;
pub use fault::AuditFault;
pub use observer::{NoProgress, ProgressObserver};
pub use whole_audit::audit;
