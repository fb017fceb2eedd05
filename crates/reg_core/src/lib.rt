//! The register of one certification authority: its values, its rules and its pure decisions.
#![tactic(auto)]

mod audit_result;
mod broken_row;
mod calendar;
mod cause;
mod change;
mod command;
mod decide;
mod grounds;
mod label;
pub mod laws;
mod memory;
mod moment;
mod number;
mod policy;
mod refusal;
mod rows;
mod schedule;
mod serial;
mod signed;
mod status;

pub use audit_result::{AuditResult, Audited};
pub use broken_row::{BrokenRow, Defect, RegisterTable};
pub use calendar::Civil;
pub use cause::{Cause, create_cause_of, io_cause_of, policy_cause_of, port_cause_of};
pub use change::Change;
pub use command::{Command, Counts, Listing, Outcome, Overdue, Query, Reply, Status};
pub use decide::{
    clock, decide_crl, decide_decline, decide_order, decide_register, decide_request,
    decide_revoke, decide_subscriber,
};
pub use grounds::Ground;
pub use label::Label;
pub use memory::Memory;
pub use moment::Moment;
pub use number::{Decimal, read_number};
pub use policy::Policy;
pub use refusal::{Fault, Refusal};
pub use rows::{CertRow, CrlRow, Entry, Head, OrderRow, RequestRow, RevocationRow, SubscriberRow};
pub use schedule::Schedule;
pub use serial::Serial;
pub use signed::SignsCrls;
pub use status::{due_of, status_of};
