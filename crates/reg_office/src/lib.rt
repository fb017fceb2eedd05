//! The office: commands, queries, lists, CRLs and OCSP responses over a register's store, with its signers.
#![tactic(auto)]

mod batches;
mod before_key;
mod crls;
mod feed_row;
mod follow;
mod identifiers;
pub mod laws;
mod office;
mod replay;
mod replay_order;
mod run;
mod stopped;

pub use office::Office;
pub use reg_office_reads::Responder;
