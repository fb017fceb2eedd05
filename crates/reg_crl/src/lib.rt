//! CRLs (RFC 5280 5): their DER, written and read, and the trait of their signers.
#![tactic(auto)]

mod crl;
mod crl_reader;
pub mod laws;
mod placeholder_digest;
mod signer;

pub use crl::{crl_tbs, crl_whole};
pub use crl_reader::{ParsedCrl, next_entry, read_crl};
pub use placeholder_digest::DigestSeal;
pub use signer::{CrlSigner, SignFault, Signer};
