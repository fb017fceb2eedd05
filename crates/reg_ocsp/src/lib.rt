//! Reads OCSP requests, writes OCSP responses (RFC 6960 4), and reads the public key of a certificate (RFC 5280 4.1.2.7).
#![tactic(auto)]

mod asked;
mod cert_id_match;
mod certificate;
mod draft;
mod extensions;
mod fault;
pub mod laws;
mod ocsp_request;
mod response;

pub use asked::{Asked, CertId};
pub use cert_id_match::matches;
pub use certificate::{Certificate, CertificateFault, SubjectPublicKey, subject_public_key};
pub use draft::{Draft, slice_of};
pub use fault::RequestFault;
pub use ocsp_request::read_request;
pub use response::{RefusalStatus, basic, basic_with, refusal, response_data, response_data_by};
