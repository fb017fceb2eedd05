//! What an office reads of a register's tables: answers to queries and OCSP requests, list pages, pages of the changes feed, and the decision of each
//! command.
#![tactic(auto)]

mod certificates;
mod changes;
mod commands;
mod decision_head;
mod ocsp_answer;
mod ocsp_faults;
mod orders;
mod pages;
mod queries;
mod register_state;
mod requests;
mod responder;
mod rows;
mod statuses;
mod subscribers;

pub use changes::{changes_in, digest_at};
pub use commands::decide;
pub use decision_head::{head_at, latest_crl};
pub use ocsp_answer::{begin_ocsp, sign_draft};
pub use pages::page;
pub use queries::answer;
pub use register_state::{last_in, longest_in, open_count_in, request_load_in, summary_in};
pub use responder::{Responder, failures_in};
