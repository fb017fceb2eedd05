//! The program `desk`: it runs the jobs of `reg_desk_jobs` on the real machine, over registers in files.
#![tactic(auto)]

mod audit_progress;
mod crl_signer;
mod desk;
mod dispatch;
mod file_audit;
mod file_office;
mod host;
mod input;
pub mod laws;
mod memory;
mod ocsp_responder;
mod offices;
mod progress;

pub use desk::run_desk;
pub use dispatch::perform;
pub use file_office::{FileDevice, FileOffice, FileSigner};
pub use host::SystemHost;
pub use offices::FileConnection;
