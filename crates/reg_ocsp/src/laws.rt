//! A theorem about OCSP requests, stated as the contract of a function that does nothing.

ghost use Rattle.reg_ocsp.specs.Request.{OneReading};

/// Two readings of the same bytes as an OCSP request (RFC 6960 4.1.1) have the same CertIDs and nonce. `read_request` returns these if it succeeds.
pub fn one_reading()
    ensures { OneReading }
{}
