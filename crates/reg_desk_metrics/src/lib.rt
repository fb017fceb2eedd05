//! The counters of an open desk (its tally), its health, and its metrics.
#![tactic(auto)]

mod ahead;
mod follower_status;
mod health;
mod metrics_text;
mod numbers;
mod samples;
mod series_names;
mod signature_outcomes;
mod tally;

pub use ahead::is_ahead;
pub use follower_status::{FeedFailure, FollowerStatus};
pub use health::Health;
pub use metrics_text::metrics;
pub use numbers::{ConnectionTotals, CrlSigning, Numbers, NumbersResult, ReadCrl, Requests};
pub use tally::Tally;
