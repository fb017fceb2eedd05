//! A register's file: opened as a database for writing, opened read-only, checked, created, removed or copied.
#![tactic(auto)]

mod file;
mod file_check;
mod file_creation;
mod file_fault;
mod file_locks;
mod machine_stop;
mod overlay;
mod page_copy;
mod read_file;
mod read_only;
mod source;

pub use file::{ClaimFault, claim_file, open_file, remove_file};
pub use file_check::{FileContent, probe_content};
pub use file_fault::FileFault;
pub use machine_stop::restart;
pub use overlay::{Overlay, overlaid};
pub use page_copy::{copy_closed, copy_open, put_pages, recovered};
pub use read_file::ReadFile;
pub use read_only::{
    ReadFailure, SourceFiles, check_database, copy_of, open_existing, open_sources, read_at,
};
pub use source::ReadAt;
