//! Runs script lines and imported CSV rows from any reader, and writes a reply line for each to any writer.
#![tactic(auto)]

mod accepted;
mod answered;
mod audit_lines;
mod batches;
mod fields;
mod host;
pub mod laws;
mod line;
mod lines;
mod moments;
mod reply;
mod row_lines;
mod rows;
mod run;
mod script;
mod strict;

pub use accepted::is_accepted;
pub use answered::{Answered, Ended, LineKind, OcspReply, RefusedCommand};
pub use audit_lines::{OTHER_SCHEMA, broken_line, sound_line};
pub use fields::Fields;
pub use host::Host;
pub use line::{ParsedLine, read_line};
pub use lines::{LONGEST_LINE, LONGEST_UNTIMED_LINE, MOST_LINES, run_lines};
pub use moments::{take_moment, untimed_line, without_end};
pub use reply::{LONGEST_REPLY, ReplyText};
pub use row_lines::lines_of_rows;
pub use rows::{MOST_BYTES, import};
pub use run::run_line;
pub use script::{run_script, run_script_for, run_script_in_batches};
pub use strict::import_strictly;
