//! Parses the command line of the program `desk`, checks its options, and gives the line and the exit status of each failure.
#![tactic(auto)]

mod argument;
mod checks;
mod commands;
mod desk;
mod failure;
mod job;
mod option_values;
mod reading_words;
mod table;
mod wrong;

pub use argument::{Argument, Steps};
pub use checks::{
    identified_issuer_of, issuer_and_policy_of, issuer_of, key_identifier_of, policy_of,
    schedule_of,
};
pub use desk::VERSION;
pub use failure::{Failure, status_of};
pub use job::{
    Endpoint, FollowJob, ImportJob, Invocation, Job, LeaderAddress, LineScript, ListJob, Loopback,
    NewRegister, OpenJob, OrderTerms, ResponderChoice, RowTask, ScriptOptions, ServeJob,
    SignerAddress, Usage,
};
pub use option_values::read_step;
pub use reading_words::{not_utf8_usage, read_words};
