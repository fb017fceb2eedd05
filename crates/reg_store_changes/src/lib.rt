//! The changes of the register in SQL tables: one in a transaction of its own, or several between [`begin`] and [`end`].
#![tactic(auto)]

mod change_statements;
mod issuer_change;
mod schedule_change;
mod settings;
mod sql;
pub mod statements;
mod transaction;
mod writes;

pub use change_statements::enter;
pub use issuer_change::set_issuer;
pub use schedule_change::set_schedule;
pub use settings::{enter_issuer, enter_schedule};
pub use transaction::apply;
pub use writes::{begin, end};
