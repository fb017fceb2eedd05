//! Laws of reg_core's definitions, about runs of commands (specs/Run.antt) over records. No law here is about code.
#![tactic(auto)]

pub mod examples;
pub mod laws;
