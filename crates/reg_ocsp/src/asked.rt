/// What an OCSP request asks for, as slices of its bytes: its CertIDs (RFC 6960 4.1.1), at least one and in their order, and its nonce (4.4.1).
#[derive(Drop)]
pub struct Asked<'a> {
    pub ids: Vec<CertId<'a>>,
    /// The contents of the first nonce's extnValue in requestExtensions, to repeat. `None` unless 1 to 131 bytes (RFC 9654 2.1: 128 octets, in DER).
    pub nonce: Option<&'a [u8]>,
}

/// A CertID (RFC 6960 4.1.1). `raw` is its whole DER value, which the response repeats, and `algorithm` the whole DER value of hashAlgorithm. The
/// other fields are the contents of issuerNameHash, issuerKeyHash, and serialNumber (in the fewest octets).
#[derive(Clone, Copy)]
pub struct CertId<'a> {
    pub raw: &'a [u8],
    pub algorithm: &'a [u8],
    pub name_hash: &'a [u8],
    pub key_hash: &'a [u8],
    pub serial: &'a [u8],
}
