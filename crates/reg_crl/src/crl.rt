//! The DER of CRLs (RFC 5280 5.1). A call fails only if out of memory.

ghost use Rattle.std.specs.Prelude.{◌≡◌, ◌++◌, ◌+◌, ◌*◌, ◌≤◌, ◌^◌, length, IfOk, OnOk};
ghost use Rattle.std.specs.List.{flat_map};
ghost use Rattle.reg_crl.specs.Crl.{extension, crl_entry_extensions, revoked_certificate, revoked_certificates, crl_extensions, authority_key_identifier, key_identifier, crl_number, tbs_of, certificate_list};
ghost use Rattle.reg_core.specs.Crls.{EntriesAscend};
ghost use Rattle.reg_core.specs.Buffers.{AppendsOnOk, ItemsOnOk};

use reg_core::{Entry, Memory, Moment};
use reg_der::tags::{ENUMERATED, OBJECT_IDENTIFIER, OCTET_STRING, PRIMITIVE_0, SEQUENCE, TAGGED_0};
use reg_der::{Issuer, put, put_bits, put_number, put_raw, put_serial, put_utc_or_general};
use std::alloc::Global;

/// The INTEGER that means version 2 (RFC 5280 5.1.2.1).
const VERSION_2: u64 = 1;

/// The reasonCode `unspecified`, for which the extension is left out (RFC 5280 5.3.1).
const UNSPECIFIED: u8 = 0;

/// The contents of the OBJECT IDENTIFIER 2.5.29.20 (RFC 5280 5.2.3). The next two are 2.5.29.21 (5.3.1) and 2.5.29.35 (5.2.1).
pub(crate) const CRL_NUMBER: [u8; 3] = [0x55, 0x1D, 0x14];

const REASON_CODE: [u8; 3] = [0x55, 0x1D, 0x15];

const AUTHORITY_KEY_IDENTIFIER: [u8; 3] = [0x55, 0x1D, 0x23];

/// The TBSCertList (RFC 5280 5.1.2), the part of a CRL that is signed: at most 2^27 bytes. `number` is the CRL number. There are at most 1,000,000
/// entries, strictly ascending by serial number. `algorithm` is the AlgorithmIdentifier of the signature, at most 1,024 bytes of DER.
#[tactic(auto, unfolding(crate::specs::Crl::tbs_cert_list))]
pub fn crl_tbs(
    alloc: Global,
    issuer: &Issuer,
    algorithm: &[u8],
    number: u64,
    this_update: Moment,
    next_update: Moment,
    entries: &[Entry],
) -> Result<Vec<u8>, Memory>
    requires ascending { EntriesAscend entries.now }
    requires few { length entries.now ≤ 1000000 }
    requires algorithm { length algorithm.now ≤ 1024 }
    ensures crl { IfOk result (λ tbs. tbs.items ≡ tbs_of algorithm.now (record {
      issuer = issuer.now;
      number = number;
      this_update = this_update;
      next_update = next_update;
      entries = entries.now;
    })) }
    ensures short { IfOk result (λ tbs. length tbs.items ≤ 2 ^ 27) }
{
    let mut contents = Vec::new(alloc);
    put_number(&mut contents, VERSION_2)?;
    put_raw(&mut contents, algorithm)?;
    put_raw(&mut contents, issuer.name())?;
    put_utc_or_general(&mut contents, this_update)?;
    put_utc_or_general(&mut contents, next_update)?;
    put_revoked_certificates(&mut contents, alloc, entries)?;
    put_crl_extensions(&mut contents, alloc, issuer, number)?;
    let mut tbs = Vec::new(alloc);
    put(&mut tbs, SEQUENCE, &contents)?;
    Ok(tbs)
}

/// The CertificateList (RFC 5280 5.1.1) of the TBSCertList (`tbs`), the same AlgorithmIdentifier as in `tbs`, and the octets of the signature.
#[tactic(auto, unfolding(crate::specs::Crl::certificate_list))]
pub fn crl_whole(
    alloc: Global,
    tbs: &[u8],
    algorithm: &[u8],
    signature: &[u8],
) -> Result<Vec<u8>, Memory>
    requires tbs { length tbs.now ≤ 2 ^ 27 }
    requires algorithm { length algorithm.now ≤ 1024 }
    requires signature { length signature.now ≤ 65536 }
    ensures bytes { IfOk result (λ whole.
        whole.items ≡ certificate_list tbs.now algorithm.now signature.now) }
    ensures short { IfOk result (λ whole.
        length whole.items ≤ length tbs.now + length algorithm.now + length signature.now + 13) }
{
    let mut contents = Vec::new(alloc);
    put_raw(&mut contents, tbs)?;
    put_raw(&mut contents, algorithm)?;
    put_bits(&mut contents, signature)?;
    let mut whole = Vec::new(alloc);
    put(&mut whole, SEQUENCE, &contents)?;
    Ok(whole)
}

#[tactic(auto, unfolding(crate::specs::Crl::revoked_certificates))]
fn put_revoked_certificates(
    out: &mut Vec<u8>,
    alloc: Global,
    entries: &[Entry],
) -> Result<(), Memory>
    requires { length entries.now ≤ 1000000 }
    ensures ok { AppendsOnOk out.old out.new result (revoked_certificates entries.now) }
    ensures length_at_most { OnOk result
        (length out.new.items ≤ length out.old.items + 59 * length entries.now + 6) }
{
    if entries.is_empty() {
        return Ok(());
    }
    let contents = revoked(alloc, entries)?;
    put(out, SEQUENCE, &contents)
}

fn revoked(alloc: Global, entries: &[Entry]) -> Result<Vec<u8>, Memory>
    ensures bytes { ItemsOnOk result (flat_map revoked_certificate entries.now) }
    ensures short { IfOk result (λ bytes. length bytes.items ≤ 59 * length entries.now) }
{
    let mut out = Vec::new(alloc);
    let mut buffer = Vec::new(alloc);
    for entry in entries {
        put_revoked_certificate(&mut out, &mut buffer, *entry)?;
    }
    Ok(out)
}

/// Appends one entry (at most 59 bytes); `at` is its revocationDate. All entries use the same `buffer` for their contents, which saves allocations.
#[tactic(auto, unfolding(crate::specs::Crl::revoked_certificate))]
fn put_revoked_certificate(
    out: &mut Vec<u8>,
    buffer: &mut Vec<u8>,
    entry: Entry,
) -> Result<(), Memory>
    ensures ok { AppendsOnOk out.old out.new result (revoked_certificate entry) }
    ensures length_at_most { OnOk result (length out.new.items ≤ length out.old.items + 59) }
{
    buffer.clear();
    put_serial(buffer, entry.serial)?;
    put_utc_or_general(buffer, entry.at)?;
    put_crl_entry_extensions(buffer, entry.reason)?;
    put(out, SEQUENCE, buffer)
}

#[tactic(auto, unfolding(crate::specs::Crl::crl_entry_extensions, crate::specs::Crl::reason_code, crate::specs::Crl::extension, reg_der::specs::Der::tlv, reg_der::specs::Der::length_octets))]
fn put_crl_entry_extensions(out: &mut Vec<u8>, reason: u8) -> Result<(), Memory>
    ensures ok { AppendsOnOk out.old out.new result (crl_entry_extensions reason) }
    ensures length_at_most { OnOk result (length out.new.items ≤ length out.old.items + 14) }
{
    if reason == UNSPECIFIED {
        return Ok(());
    }
    let [id1, id2, id3] = REASON_CODE;
    // The DER of Extensions { Extension { extnID, extnValue { reasonCode } } }. Each length, such as 12, is fixed.
    let extensions = [
        SEQUENCE,
        12,
        SEQUENCE,
        10,
        OBJECT_IDENTIFIER,
        3,
        id1,
        id2,
        id3,
        OCTET_STRING,
        3,
        ENUMERATED,
        1,
        reason,
    ];
    put_raw(out, &extensions)
}

#[tactic(auto, unfolding(crate::specs::Crl::crl_extensions))]
fn put_crl_extensions(
    out: &mut Vec<u8>,
    alloc: Global,
    issuer: &Issuer,
    number: u64,
) -> Result<(), Memory>
    ensures ok { AppendsOnOk out.old out.new result (crl_extensions issuer.now number) }
    ensures length_at_most { OnOk result (length out.new.items ≤ length out.old.items + 200) }
{
    let mut extensions = Vec::new(alloc);
    put_authority_key_identifier(&mut extensions, alloc, issuer, number)?;
    put_crl_number(&mut extensions, alloc, number)?;
    let mut sequence = Vec::new(alloc);
    put(&mut sequence, SEQUENCE, &extensions)?;
    put(out, TAGGED_0, &sequence)
}

/// The keyIdentifier is the one that was set for the CRL with this number, or the SHA-1 of the issuer's key if none was set.
fn put_authority_key_identifier(
    out: &mut Vec<u8>,
    alloc: Global,
    issuer: &Issuer,
    number: u64,
) -> Result<(), Memory>
    ensures ok { OnOk result (
        out.new.items ≡ out.old.items ++ authority_key_identifier (key_identifier issuer.now number)) }
    ensures length_at_most { OnOk result (length out.new.items ≤ length out.old.items + 100) }
{
    match issuer.key_identifier(number) {
        Some(identifier) => put_identifier(out, alloc, identifier.as_bytes()),
        None => put_identifier(out, alloc, &issuer.key_sha1()),
    }
}

#[tactic(auto, unfolding(crate::specs::Crl::authority_key_identifier))]
fn put_identifier(out: &mut Vec<u8>, alloc: Global, identifier: &[u8]) -> Result<(), Memory>
    requires { length identifier.now ≤ 64 }
    ensures ok { AppendsOnOk out.old out.new result (authority_key_identifier identifier.now) }
    ensures length_at_most { OnOk result (length out.new.items ≤ length out.old.items + 100) }
{
    let mut key_identifier = Vec::new(alloc);
    put(&mut key_identifier, PRIMITIVE_0, identifier)?;
    let mut value = Vec::new(alloc);
    put(&mut value, SEQUENCE, &key_identifier)?;
    put_extension(out, alloc, AUTHORITY_KEY_IDENTIFIER, &value)
}

#[tactic(auto, unfolding(crate::specs::Crl::crl_number))]
fn put_crl_number(out: &mut Vec<u8>, alloc: Global, number: u64) -> Result<(), Memory>
    ensures ok { AppendsOnOk out.old out.new result (crl_number number) }
    ensures length_at_most { OnOk result (length out.new.items ≤ length out.old.items + 40) }
{
    let mut value = Vec::new(alloc);
    put_number(&mut value, number)?;
    put_extension(out, alloc, CRL_NUMBER, &value)
}

/// Appends an extension that is not critical. `identifier` is the contents of its extnID, and `value` those of its extnValue.
#[tactic(auto, unfolding(crate::specs::Crl::extension))]
fn put_extension(
    out: &mut Vec<u8>,
    alloc: Global,
    identifier: [u8; 3],
    value: &[u8],
) -> Result<(), Memory>
    requires { length value.now ≤ 1000 }
    ensures ok { AppendsOnOk out.old out.new result (extension identifier value.now) }
    ensures length_at_most { OnOk result
        (length out.new.items ≤ length out.old.items + length value.now + 21) }
{
    let mut contents = Vec::new(alloc);
    put(&mut contents, OBJECT_IDENTIFIER, &identifier)?;
    put(&mut contents, OCTET_STRING, value)?;
    put(out, SEQUENCE, &contents)
}
