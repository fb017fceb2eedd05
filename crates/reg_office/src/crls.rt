//! Makes, signs and stores CRLs, and looks up their DER. `row` has a CRL's number and thisUpdate. `crl_tbs` writes the TBSCertList (RFC 5280 5.1).

ghost use Rattle.std.specs.Prelude.{◌≡◌, ◌≤◌, ◌<◌, ◌+◌, length, IsErrOf, IfOk, IfErr};
ghost use Rattle.reg_office_api.specs.Items.{items_of};
ghost use Rattle.reg_core.specs.Calendar.{clock_end};
ghost use Rattle.reg_core.specs.declared.command.Command.TheVariants.{Crl as IssueCrl};
ghost use Rattle.reg_store_tables.specs.Stays.{Looked};
ghost use Rattle.reg_office_reads.specs.Answering.{SignerHasFailed};
ghost use Rattle.reg_office.specs.Commands.{RunsCommand};
ghost use Rattle.reg_office_reads.specs.Faults.{IsMakingFault, IsSigningFault, IsTableFault};
ghost use Rattle.reg_office.specs.Issuing.{IsNextOf};
ghost use Rattle.reg_core.specs.Step.{refusal};
ghost use Rattle.reg_office_reads.specs.Looking.{LooksAndDecides};
ghost use Rattle.reg_store_tables.specs.LookUps.{Learns, LooksUp};
ghost use Rattle.reg_core.specs.Crls.{EntriesAscend, cert_list, listed_revocations, entries};
ghost use Rattle.reg_core.specs.declared.refusal.Fault.TheVariants.{Signer as SignerFailed};
ghost use Rattle.reg_crl.specs.Signing.{signed_by};
ghost use Rattle.reg_office_api.specs.Answered.{IsGiven};

use reg_core::{CrlRow, Entry, Fault, Moment, Refusal, Reply, decide_crl};
use reg_crl::{SignFault, Signer, crl_tbs, crl_whole};
use reg_der::Issuer;
use reg_office_reads::{head_at, latest_crl};
use reg_store::{DatabaseFault, Store, Table, Tables};
use sqlite::Alter;
use std::alloc::Global;

fn signed_crl<S: Signer>(
    alloc: Global,
    signer: &mut S,
    issuer: &Issuer,
    row: &CrlRow,
    next_update: Moment,
    entries: &[Entry],
) -> Result<Vec<u8>, Fault>
    requires ascending { EntriesAscend entries.now }
    requires few { length entries.now ≤ 1000000 }
    ensures signed { IfOk result (λ crl. signed_by S.signs (S.identity signer.old)
        (record {
          issuer = issuer.now;
          number = row.now.number;
          this_update = row.now.this_update;
          next_update = next_update;
          entries = entries.now;
        })
        crl.items) }
    ensures same_identity { S.identity signer.new ≡ S.identity signer.old }
    ensures device { IsErrOf result SignerFailed → SignerHasFailed S.Signer signer.old signer.new }
    ensures faults { IfErr result IsSigningFault }
{
    let tbs = crl_tbs(
        alloc,
        issuer,
        signer.algorithm(),
        row.number,
        row.this_update,
        next_update,
        entries,
    )?;
    let signature = signature_of(alloc, signer, &tbs)?;
    Ok(crl_whole(alloc, &tbs, signer.algorithm(), &signature)?)
}

// Requests the signature even during the signer's back-off (the time after a timeout), because the signer may just have been repaired.
fn signature_of<S: Signer>(
    alloc: Global,
    signer: &mut S,
    message: &[u8],
) -> Result<Vec<u8>, SignFault>
    ensures signed { IfOk result (λ signature. S.signs (S.identity signer.old) message.now signature.items) }
    ensures short { IfOk result (λ signature. length signature.items ≤ 65536) }
    ensures same_identity { S.identity signer.new ≡ S.identity signer.old }
    ensures device { IsErrOf result SignFault.Device → SignerHasFailed S.Signer signer.old signer.new }
{
    signer.reset_backoff();
    signer.sign(alloc, message)
}

/// The row of the next CRL, and its nextUpdate; or the refusal of `crl`. `head`: now, the last accepted moment, the policy, the number of CRLs.
pub(crate) fn next_row<C: Alter>(
    tables: &mut Tables<C>,
    now: Moment,
) -> Result<(CrlRow, Moment), Fault>
    requires { now < clock_end }
    ensures { LooksAndDecides C.Store tables.old tables.new (λ records. refusal records now IssueCrl)
        (λ records next. IsNextOf records now next) result }
{
    let head = head_at(tables, now, Table::Crls)?;
    let latest = latest_crl(tables)?;
    let row = decide_crl(&head, latest)?;
    let next_update = now.plus(head.policy.crl_life());
    Ok((row, next_update))
}

/// The issuer, and the entries of the CRL with this number. The CRL may be an issued one, or the next one.
pub(crate) fn listed<C: Alter>(
    tables: &mut Tables<C>,
    number: u64,
) -> Result<(Issuer, Vec<Entry>), DatabaseFault>
    ensures looks { Learns C.Store tables.old tables.new result (λ records it.
        (it.0 ≡ records.issuer) × (it.1.items ≡ entries records number)) }
    ensures ascending { IfOk result (λ it. EntriesAscend it.1.items) }
    ensures few { IfOk result (λ it. length it.1.items ≤ 1000000) }
{
    let issuer = tables.issuer()?;
    let entries = tables.entries(number)?;
    Ok((issuer, entries))
}

/// The DER of the signed CRL of a row, and how many entries it has.
fn made_crl<C: Alter, S: Signer>(
    tables: &mut Tables<C>,
    signer: &mut S,
    alloc: Global,
    row: &CrlRow,
    next_update: Moment,
) -> Result<(Vec<u8>, u64), Fault>
    ensures looks { LooksUp C.Store tables.old tables.new (λ records.
        next_update ≡ row.now.this_update + records.policy.crl_life → IfOk result (λ crl.
        signed_by S.signs (S.identity signer.old)
        (cert_list records row.now.number row.now.this_update) crl.0.items
        × (crl.1 ≡ length (listed_revocations records row.now.number)))) }
    ensures same_identity { S.identity signer.new ≡ S.identity signer.old }
    ensures device { IsErrOf result SignerFailed → SignerHasFailed S.Signer signer.old signer.new }
    ensures faults { IfErr result IsMakingFault }
{
    let (issuer, entries) = listed(tables, row.number)?;
    let der = signed_crl(alloc, signer, &issuer, row, next_update, &entries)?;
    let count = entries.len() as u64;
    Ok((der, count))
}

/// The TBSCertList of the next CRL, whose signature is requested before `crl` runs; or the refusal of `crl`. `algorithm`: the signer's, in DER.
pub(crate) fn next_message<C: Alter>(
    tables: &mut Tables<C>,
    alloc: Global,
    algorithm: &[u8],
    now: Moment,
) -> Result<Vec<u8>, Fault>
    requires before_end { now < clock_end }
    requires algorithm { length algorithm.now ≤ 1024 }
    ensures { Looked C.Store tables.old tables.new }
{
    let (row, next_update) = next_row(tables, now)?;
    let (issuer, entries) = listed(tables, row.number)?;
    Ok(crl_tbs(
        alloc,
        &issuer,
        algorithm,
        row.number,
        row.this_update,
        next_update,
        &entries,
    )?)
}

pub(crate) fn issue_crl<C: Alter, S: Signer>(
    store: &mut Store<C>,
    signer: &mut S,
    alloc: Global,
    now: Moment,
) -> Result<Reply, Fault>
    requires { now < clock_end }
    ensures { RunsCommand C.Store S.Signer store.old store.new signer.old signer.new now IssueCrl result }
{
    let (row, next_update) = next_row(store, now)?;
    let (der, entries) = made_crl(store, signer, alloc, &row, next_update)?;
    let number = row.number;
    store.add_crl(now, row, &der)?;
    Ok(Reply::Crl { number, entries })
}

pub(crate) fn numbered_der<C: Alter>(tables: &mut Tables<C>, number: u64) -> Result<Vec<u8>, Fault>
    ensures looks { LooksUp C.Store tables.old tables.new (λ records.
        IsGiven records (Some number) (items_of result)) }
    ensures faults { IfErr result IsTableFault }
{
    match tables.crl(number)? {
        Some(bytes) => Ok(bytes),
        None => Err(Fault::Refused(Refusal::NoCrl)),
    }
}

pub(crate) fn latest_der<C: Alter>(tables: &mut Tables<C>) -> Result<Vec<u8>, Fault>
    ensures looks { LooksUp C.Store tables.old tables.new (λ records.
        IsGiven records None (items_of result)) }
    ensures faults { IfErr result IsTableFault }
{
    match tables.latest_crl()? {
        Some(latest) => {
            let number = latest.number;
            numbered_der(tables, number)
        }
        None => Err(Fault::Refused(Refusal::NoCrl)),
    }
}
