ghost use Rattle.std.specs.Prelude.{◌≡◌, ◌≤◌, ◌↔◌, ◌++◌, length, IfOk, IfSome, OnOk, IsErrOf, IsTrue};
ghost use Rattle.sha1.specs.Sha1.{sha1};
ghost use Rattle.reg_der.specs.Authority.{IsIssuerName, IsKey, IsStoredName, IsIssuer, name_in, after_name, name_of, identifier_value, key_identifier_at, earlier_identifiers, with_identifier, HasIdentifier};
ghost use Rattle.reg_der.specs.declared.issuer.IssuerFault.TheVariants.{Memory};
ghost use Rattle.reg_core.specs.Buffers.{AppendsOnOk};

use crate::identifiers::{KEY_IDENTIFIER, are_identifiers, earlier_identifiers, identifier_for};
use crate::tags::SEQUENCE;
use crate::tlv_reader::take;
use crate::tlv_writer::{copy_of, put, put_raw};
use reg_core::{Label, Memory};
use sha1::Sha1;
use std::alloc::{AllocError, Global};
use std::marker::Model;

const LONGEST_NAME: usize = 1_024;

const LONGEST_KEY: usize = 2_048;

/// Why no [`Issuer`] was made. `BadName`: the Name isn't one DER SEQUENCE with contents, of at most 1,024 bytes in all; or, in a stored name,
/// other bytes than key identifiers follow it. `BadKey`: the key has no bytes, or more than 2,048.
#[derive(Clone, Copy, PartialEq, Eq)]
pub enum IssuerFault {
    BadName,
    BadKey,
    Memory,
}

impl From<AllocError> for IssuerFault {
    ghost from_gives = { λ _ e. e ≡ Memory };

    fn from(_e: AllocError) -> IssuerFault {
        IssuerFault::Memory
    }
}

/// The issuer of CRLs and OCSP responses: its Name, its public key, and the key identifiers that were set for it. Contracts see the bytes of both
/// fields: the stored name (the DER value of the Name, and after it the key identifiers, the latest first), and the key (see `new`).
#[derive(Drop)]
pub struct Issuer {
    name: Vec<u8>,
    key: Vec<u8>,
}

impl Model for Issuer {
    ghost use Rattle.reg_core.specs.Issuer as core;
    ghost use Rattle.reg_der.specs.Authority.{IsIssuer};

    ghost Value = { core.Issuer };

    ghost view = { λ issuer. record { name = issuer.name.items; key = issuer.key.items } };

    ghost invariant = { λ issuer. IsIssuer (record { name = issuer.name.items; key = issuer.key.items }) };
}

impl Issuer {
    /// The issuer with this Name (its DER, RFC 5280 4.1.2.4) and without key identifiers; or the first fault, in the order of [`IssuerFault`]. `key`
    /// has the contents of the subjectPublicKey BIT STRING after the octet that counts unused bits (4.1.2.7).
    pub fn new(alloc: Global, name: &[u8], key: &[u8]) -> Result<Issuer, IssuerFault>
        ensures ok { IfOk result (λ issuer. (issuer.name ≡ name.now) × (issuer.key ≡ key.now)) }
        ensures good { OnOk result (IsIssuerName name.now × IsKey key.now) }
        ensures bad_name { IsErrOf result IssuerFault.BadName ↔ ¬ (IsIssuerName name.now) }
        ensures bad_key { IsErrOf result IssuerFault.BadKey ↔ (IsIssuerName name.now × ¬ (IsKey key.now)) }
    {
        if is_name(name) {
            Issuer::of_stored(alloc, name, key)
        } else {
            Err(IssuerFault::BadName)
        }
    }

    /// The issuer with this stored name (see [`stored_name`](Issuer::stored_name)) and key. `BadName` if the Name in it isn't as for
    /// [`new`](Issuer::new), or if anything but key identifiers follows the Name. `BadKey` and `Memory` as for `new`.
    pub fn of_stored(alloc: Global, stored_name: &[u8], key: &[u8]) -> Result<Issuer, IssuerFault>
        ensures ok { IfOk result (λ issuer. (issuer.name ≡ stored_name.now) × (issuer.key ≡ key.now)) }
        ensures good { OnOk result (IsStoredName stored_name.now × IsKey key.now) }
        ensures bad_name { IsErrOf result IssuerFault.BadName ↔ ¬ (IsStoredName stored_name.now) }
        ensures bad_key { IsErrOf result IssuerFault.BadKey
            ↔ (IsStoredName stored_name.now × ¬ (IsKey key.now)) }
    {
        if !is_stored_name(stored_name) {
            return Err(IssuerFault::BadName);
        }
        if !is_key(key) {
            return Err(IssuerFault::BadKey);
        }
        let name = Vec::from_slice(alloc, stored_name)?;
        let key = Vec::from_slice(alloc, key)?;
        Ok(Issuer { name, key })
    }

    /// This issuer with one more key identifier, `octets`. CRLs from number `first` on have it; those with lower numbers keep theirs
    /// (`laws::identifiers_follow`). It replaces the latest key identifier if that was set from the same number on.
    pub fn with_key_identifier(
        &self,
        alloc: Global,
        first: u64,
        octets: Label,
    ) -> Result<Issuer, Memory>
        ensures ok { IfOk result (λ issuer. issuer ≡ with_identifier self.now first octets) }
        ensures follows { HasIdentifier self.now first octets }
    {
        let name = stored_name_with(alloc, &self.name, first, octets.as_bytes())?;
        let key = copy_of(alloc, &self.key)?;
        Ok(Issuer { name, key })
    }

    /// The DER value of the Name.
    pub fn name(&self) -> &[u8]
        ensures name { result.now ≡ name_of self.now }
        ensures within { IsIssuerName result.now }
    {
        split_stored_name(&self.name).0
    }

    /// The bytes that the register stores as the issuer's name: the DER value of the Name, and after it the key identifiers that were set.
    pub fn stored_name(&self) -> &[u8]
        ensures stored_name { result.now ≡ self.now.name }
        ensures within { IsStoredName result.now }
    {
        &self.name
    }

    /// The key identifier that was set for the CRL with this number (RFC 5280 5.2.1). `None` if none was set: that CRL has the SHA-1 of the key.
    pub fn key_identifier(&self, number: u64) -> Option<Label>
        ensures identifier { result ≡ key_identifier_at self.now number }
        ensures short { IfSome result (λ octets. length octets ≤ 64) }
    {
        identifier_for(split_stored_name(&self.name).1, number)
    }

    /// The contents of the subjectPublicKey BIT STRING, without the octet that counts unused bits.
    pub fn key(&self) -> &[u8]
        ensures key { result.now ≡ self.now.key }
        ensures within { IsKey result.now }
    {
        &self.key
    }

    /// The SHA-1 of the DER value of the Name, the issuerNameHash of a CertID (RFC 6960 4.1.1).
    pub fn name_sha1(&self) -> [u8; 20]
        ensures { result ≡ sha1 (name_of self.now) }
    {
        Sha1::digest(self.name())
    }

    /// The SHA-1 of the key: the issuerKeyHash of a CertID (RFC 6960 4.1.1), and the key identifier in CRLs if none was set (RFC 5280 4.2.1.2).
    pub fn key_sha1(&self) -> [u8; 20]
        ensures { result ≡ sha1 self.now.key }
    {
        Sha1::digest(&self.key)
    }
}

/// The first DER value (the Name), and the bytes after it (the key identifiers). If there is no value, both are empty, and [`is_name`] is false.
#[tactic(auto, unfolding(crate::specs::Authority::name_in, crate::specs::Authority::after_name))]
fn split_stored_name(stored_name: &[u8]) -> (&[u8], &[u8])
    ensures name { result.0.now ≡ name_in stored_name.now }
    ensures behind { result.1.now ≡ after_name stored_name.now }
{
    match take(stored_name) {
        Some((value, rest)) => (value.raw, rest),
        None => (&[], &[]),
    }
}

fn is_stored_name(stored_name: &[u8]) -> bool
    ensures { IsTrue result ↔ IsStoredName stored_name.now }
{
    let (name, identifiers) = split_stored_name(stored_name);
    is_name(name) && are_identifiers(identifiers)
}

fn stored_name_with(
    alloc: Global,
    stored_name: &[u8],
    first: u64,
    octets: &[u8],
) -> Result<Vec<u8>, Memory>
    requires { length octets.now ≤ 64 }
    ensures { IfOk result (λ made. made.items
        ≡ (name_in stored_name.now ++ identifier_value first octets.now)
        ++ earlier_identifiers first (after_name stored_name.now)) }
{
    let (name, identifiers) = split_stored_name(stored_name);
    let mut stored = copy_of(alloc, name)?;
    put_identifier(alloc, &mut stored, first, octets)?;
    put_raw(&mut stored, earlier_identifiers(identifiers, first))?;
    Ok(stored)
}

#[tactic(auto, unfolding(crate::specs::Authority::identifier_value))]
fn put_identifier(alloc: Global, out: &mut Vec<u8>, first: u64, octets: &[u8]) -> Result<(), Memory>
    requires { length octets.now ≤ 64 }
    ensures { AppendsOnOk out.old out.new result (identifier_value first octets.now) }
{
    let mut contents = copy_of(alloc, &first.to_be_bytes())?;
    put_raw(&mut contents, octets)?;
    put(out, KEY_IDENTIFIER, &contents)
}

fn is_name(name: &[u8]) -> bool
    ensures { IsTrue result ↔ IsIssuerName name.now }
{
    if name.len() > LONGEST_NAME {
        return false;
    }
    match take(name) {
        None => false,
        Some((value, rest)) => {
            if value.tag != SEQUENCE || value.contents.is_empty() {
                return false;
            }
            rest.is_empty()
        }
    }
}

fn is_key(key: &[u8]) -> bool
    ensures { IsTrue result ↔ IsKey key.now }
{
    !key.is_empty() && key.len() <= LONGEST_KEY
}
