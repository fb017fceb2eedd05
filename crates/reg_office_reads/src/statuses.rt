ghost use Rattle.std.specs.Prelude.{◌≡◌, ◌⊎◌, map, IfOk, IfErr};
ghost use Rattle.std.specs.List.{AllByRecursion};
ghost use Rattle.reg_core.specs.Status as spec;
ghost use Rattle.reg_ocsp.specs.Views.{id_model};
ghost use Rattle.reg_office_api.specs.Ocsp.{IsStatusFor};
ghost use Rattle.reg_store_tables.specs.LookUps.{Learns, LooksUp};

use crate::ocsp_faults::ResponseFault;
use reg_core::{Moment, Serial, Status, status_of};
use reg_der::Issuer;
use reg_ocsp::{CertId, matches};
use reg_store_tables::{DatabaseFault, Tables};
use sqlite::Alter;
use std::alloc::Global;

/// Each CertID with its status at the moment `now`, in their order.
pub(crate) fn answers<'a, C: Alter>(
    alloc: Global,
    tables: &mut Tables<C>,
    issuer: &Issuer,
    now: Moment,
    ids: &[CertId<'a>],
) -> Result<Vec<(CertId<'a>, Status)>, ResponseFault>
    ensures ids { IfOk result (λ answers. map (λ answer. answer.0) answers.items ≡ ids.now) }
    ensures looks { LooksUp C.Store tables.old tables.new (λ records.
        issuer.now ≡ records.issuer → IfOk result (λ answers.
        AllByRecursion (λ answer. IsStatusFor records now (id_model answer.0) answer.1) answers.items)) }
    ensures faults { IfErr result (λ fault. (fault ≡ ResponseFault.Memory) ⊎ (fault ≡ ResponseFault.Store)) }
{
    let mut answers = Vec::new(alloc);
    for id in ids {
        let status = status_for_id(tables, issuer, now, id)?;
        answers.extend_from_slice(&[(*id, status)])?;
    }
    Ok(answers)
}

/// The status of the serial number, if the CertID identifies a certificate of the issuer; else `Unknown`.
fn status_for_id<C: Alter>(
    tables: &mut Tables<C>,
    issuer: &Issuer,
    now: Moment,
    id: &CertId<'_>,
) -> Result<Status, ResponseFault>
    ensures looks { LooksUp C.Store tables.old tables.new (λ records.
        issuer.now ≡ records.issuer
        → IfOk result (λ reported. IsStatusFor records now (id_model id.now) reported)) }
    ensures faults { IfErr result (λ fault. (fault ≡ ResponseFault.Memory) ⊎ (fault ≡ ResponseFault.Store)) }
{
    match matches(issuer, id) {
        Some(serial) => Ok(status_at(tables, serial, now)?),
        None => Ok(Status::Unknown),
    }
}

pub(crate) fn status_at<C: Alter>(
    tables: &mut Tables<C>,
    serial: Serial,
    now: Moment,
) -> Result<Status, DatabaseFault>
    ensures { Learns C.Store tables.old tables.new result (λ records status.
        status ≡ spec.status records serial now) }
{
    let certificate = tables.cert(serial)?;
    let revocation = tables.revocation(serial)?;
    Ok(status_of(now, certificate, revocation))
}
