//! The jobs of the program `desk`, such as `desk audit`, on any [`Machine`](reg_desk_service::Machine), which makes their system calls.
#![tactic(auto)]

mod at_job;
mod control_socket;
mod copy_job;
mod fill_job;
mod follow_job;
mod jobs;
pub mod laws;
mod line_source;
mod lines_job;
mod list_job;
mod log_entries;
mod open_job;
mod output_lines;
mod published;
mod replay_job;
mod row_job;
mod serve_job;

pub use at_job::{at, at_rows, exchange_lines};
pub use copy_job::copy;
pub use follow_job::follow;
pub use jobs::{audit, crl, import_rows, init, key_identifier, schedule, script};
pub use line_source::LineSource;
pub use lines_job::script_by_lines;
pub use list_job::list;
pub use open_job::serve_open;
pub use output_lines::report_exit;
pub use replay_job::replay;
pub use row_job::each_row;
pub use serve_job::serve;
