//! Checks arguments and options before a register is created or opened, and makes the issuer, policy, schedule or key identifier that they give.

ghost use Rattle.std.specs.Prelude.{◌≡◌, ◌⊎◌, IfErr, IfOk, IsErr, Ok};
ghost use Rattle.reg_core.specs.Schedule.{IsSchedule};
ghost use Rattle.reg_desk_cli.specs.Checks.{WritesIssuer, WritesIdentifier, WritesIdentified, IsNoIssuer, IsNoIdentifier, IsNotIdentified, IsNoPolicy, IsNoIssuerOrPolicy, IsNoSchedule, terms_of_days};
ghost use Rattle.reg_core.specs.Policy.{IsPolicy};
ghost use Rattle.hex.specs.Hex.{decode_of};

use crate::failure::Failure;
use crate::{Argument, Steps};
use hex::FromHexError;
use reg_core::{Fault, Label, Memory, Policy, Schedule};
use reg_der::{Issuer, IssuerFault};
use std::alloc::Global;

/// The number of a new register's first CRL. `init` sets a key identifier from this CRL on; `key-id` may set others from later CRLs on.
const FIRST_CRL: u64 = 1;

/// The issuer with this Name in DER and this key (the bits of its subjectPublicKey), both in hexadecimal. Errors: `BadIssuer` if one is not
/// hexadecimal, or invalid (RFC 5280 4.1.2.4, 4.1.2.7; see [`Issuer::new`]); the fault `Memory`.
pub fn issuer_of(alloc: Global, name: &Argument<'_>, key: &Argument<'_>) -> Result<Issuer, Failure>
    ensures ok { IfOk result (WritesIssuer name.now key.now) }
    ensures err { IfErr result (IsNoIssuer name.now key.now) }
{
    let name = bytes_of(alloc, name)?;
    let key = bytes_of(alloc, key)?;
    match Issuer::new(alloc, &name, &key) {
        Ok(issuer) => Ok(issuer),
        Err(IssuerFault::BadName) => Err(Failure::BadIssuer),
        Err(IssuerFault::BadKey) => Err(Failure::BadIssuer),
        Err(IssuerFault::Memory) => Err(Failure::Fault(Fault::Memory)),
    }
}

/// The key identifier in hexadecimal (RFC 5280 4.2.1.2). Errors: `BadIssuer` if it is not hexadecimal, or not of 1 to 64 bytes; the fault `Memory`.
pub fn key_identifier_of(alloc: Global, key_id: &Argument<'_>) -> Result<Label, Failure>
    ensures ok { IfOk result (WritesIdentifier key_id.now) }
    ensures err { IfErr result (IsNoIdentifier key_id.now) }
{
    let octets = bytes_of(alloc, key_id)?;
    match Label::of(&octets) {
        Some(octets) => Ok(octets),
        None => Err(Failure::BadIssuer),
    }
}

/// The issuer with this Name and key. `key_id` is the key identifier in each of its CRLs; `None` for the SHA-1 of the key. All are in hexadecimal.
/// Errors: those of [`issuer_of`], then those of [`key_identifier_of`].
pub fn identified_issuer_of(
    alloc: Global,
    name: &Argument<'_>,
    key: &Argument<'_>,
    key_id: &Option<Argument<'_>>,
) -> Result<Issuer, Failure>
    ensures ok { IfOk result (WritesIdentified name.now key.now key_id.now) }
    ensures err { IfErr result (IsNotIdentified name.now key.now key_id.now) }
{
    let issuer = issuer_of(alloc, name, key)?;
    match key_id {
        None => Ok(issuer),
        Some(key_id) => {
            let octets = key_identifier_of(alloc, key_id)?;
            match issuer.with_key_identifier(alloc, FIRST_CRL, octets) {
                Ok(issuer) => Ok(issuer),
                Err(Memory) => Err(Failure::Fault(Fault::Memory)),
            }
        }
    }
}

fn bytes_of(alloc: Global, word: &Argument<'_>) -> Result<Vec<u8>, Failure>
    ensures ok { IfOk result (λ bytes. decode_of word.now ≡ Ok bytes.items) }
    ensures err { IfErr result (λ failure. (failure ≡ Failure.Fault Fault.Memory)
        ⊎ ((failure ≡ Failure.BadIssuer) × IsErr (decode_of word.now))) }
{
    match hex::decode(alloc, word.as_str().as_bytes()) {
        Ok(bytes) => Ok(bytes),
        Err(FromHexError::OutOfMemory) => Err(Failure::Fault(Fault::Memory)),
        Err(_) => Err(Failure::BadIssuer),
    }
}

/// The policy by which a certificate with any notBefore is valid for at most `days`, a CRL and an OCSP response have `crl_life` and `ocsp_life`
/// seconds from thisUpdate to nextUpdate, and each table has at most `cap` rows. `BadPolicy` if one of these numbers is out of its range.
pub fn policy_of(days: u64, crl_life: u64, ocsp_life: u64, cap: u64) -> Result<Policy, Failure>
    ensures ok { IfOk result (λ policy.
        (policy ≡ terms_of_days days crl_life ocsp_life cap) × IsPolicy policy) }
    ensures err { IfErr result (IsNoPolicy (terms_of_days days crl_life ocsp_life cap)) }
{
    match Policy::new(days, crl_life, ocsp_life, cap) {
        Some(policy) => Ok(policy),
        None => Err(Failure::BadPolicy),
    }
}

/// The issuer and the policy of a new register, from the arguments of [`identified_issuer_of`] and [`policy_of`]. Errors: theirs, in this order.
pub fn issuer_and_policy_of(
    alloc: Global,
    name: &Argument<'_>,
    key: &Argument<'_>,
    key_id: &Option<Argument<'_>>,
    days: u64,
    crl_life: u64,
    ocsp_life: u64,
    cap: u64,
) -> Result<(Issuer, Policy), Failure>
    ensures ok { IfOk result (λ made. WritesIdentified name.now key.now key_id.now made.0
        × (made.1 ≡ terms_of_days days crl_life ocsp_life cap) × IsPolicy made.1) }
    ensures err { IfErr result
        (IsNoIssuerOrPolicy name.now key.now key_id.now (terms_of_days days crl_life ocsp_life cap)) }
{
    let issuer = identified_issuer_of(alloc, name, key, key_id)?;
    let policy = policy_of(days, crl_life, ocsp_life, cap)?;
    Ok((issuer, policy))
}

/// The schedule with these steps. Each is a moment, and the longest validity in days of a certificate whose notBefore is from then to the next step.
/// `BadPolicy` unless they are 1 to 16 steps of 1 to 398 days, with ascending moments, the first 1970-01-01T00:00:00Z.
pub fn schedule_of(steps: &Steps) -> Result<Schedule, Failure>
    ensures ok { IfOk result (λ schedule. (schedule ≡ steps.now) × IsSchedule schedule) }
    ensures err { IfErr result (IsNoSchedule steps.now) }
{
    match Schedule::new(steps.as_slice()) {
        Some(schedule) => Ok(schedule),
        None => Err(Failure::BadPolicy),
    }
}
