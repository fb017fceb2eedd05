//! Signers whose key is in a device (a process, smart card or security module that signs), and a device that is reached by a Unix socket.
#![tactic(auto)]

mod algorithm;
mod announcement;
mod backoff;
mod counted_bytes;
mod device;
mod exchange;
mod forms;
pub mod laws;
mod numbers;
mod preset_signature;
mod register_signer;
mod signature_request;
mod signed;
mod signer;
mod signer_connection;
mod unix_connection;

pub use algorithm::{Algorithm, is_key_algorithm_identifier};
pub use backoff::{Backoff, BackoffDevice};
pub use device::{Device, DeviceFault};
pub use exchange::{DeviceConnection, SocketDevice};
pub use forms::has_form;
pub use preset_signature::PresetSignature;
pub use register_signer::RegisterSigner;
pub use signature_request::SignatureRequest;
pub use signed::crl_algorithm;
pub use signer::{DeviceSigner, KeyFault};
pub use signer_connection::{Framing, Progress, SignerConnection};
pub use unix_connection::UnixConnection;
