//! The interface of a register's office, which runs commands and answers queries, for the front ends. It does not say where records are stored.
#![tactic(auto)]

mod changes;
mod effects;
mod follow;
pub mod laws;
mod office;
mod register_summary;
mod response;

pub use changes::Changes;
pub use effects::{LineEffects, LineReply, SignatureOutcome, StoreEffect};
pub use follow::{BrokenFeed, FeedPart, FeedRule, FollowFault};
pub use office::Office;
pub use register_summary::{RegisterSummary, RequestLoad, TableSizes};
pub use response::{OcspResponse, ResponseKind};
