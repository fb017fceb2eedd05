//! DER values, read and written (X.690), and the issuer of CRLs and OCSP responses.
#![tactic(auto)]

mod identifiers;
mod issuer;
pub mod laws;
pub mod tags;
mod times;
mod tlv_reader;
mod tlv_writer;
pub mod values;

pub use identifiers::KeyIdentifier;
pub use issuer::{Issuer, IssuerFault};
pub use tlv_reader::{Tlv, take};
pub use tlv_writer::{
    copy_of, put, put_bits, put_general, put_number, put_raw, put_serial, put_utc_or_general,
};
