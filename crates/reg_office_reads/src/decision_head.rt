//! The input that decisions read from the tables (a `Head`, and rows), and the result of a decision.

ghost use Rattle.std.specs.Prelude.{◌≡◌, ◌↔◌, ◌<◌, ◌^◌, option_map, IfOk, IfSome, IsTrue};
ghost use Rattle.reg_core.specs.Calendar.{clock_end};
ghost use Rattle.reg_core.specs.Crls.{latest, row_of};
ghost use Rattle.reg_core.specs.Decisions.{head_of};
ghost use Rattle.reg_core.specs.Records.{certificate_in, revocation_in};
ghost use Rattle.reg_store_tables.specs.Tables.{rows_of};
ghost use Rattle.reg_store_tables.specs.LookUps.{Learns};

use reg_core::{CertRow, Change, CrlRow, Head, Moment, Policy, Reply, RevocationRow, Serial};
use reg_store_tables::{DatabaseFault, Table, Tables};
use sqlite::Alter;

/// The reply to a command that is accepted, and the one change that it makes.
pub(crate) type Decided = (Reply, Change<'static>);

/// The input of a decision besides its rows: `now`, the last accepted moment, the policy, and `held`, how many rows `table` has (one is to be added).
pub fn head_at<C: Alter>(
    tables: &mut Tables<C>,
    now: Moment,
    table: Table,
) -> Result<Head, DatabaseFault>
    ensures { Learns C.Store tables.old tables.new result (λ records head.
        head ≡ head_of records now (rows_of records table)) }
{
    let last = tables.last()?;
    let policy = tables.policy()?;
    let held = tables.held(table)?;
    Ok(Head {
        now,
        last,
        policy,
        held,
    })
}

/// The input for `decline` and `revoke`, which use only its moments, as they add no row to a capped table. Its policy and `held` are placeholders.
pub(crate) fn clock_head<C: Alter>(
    tables: &mut Tables<C>,
    now: Moment,
) -> Result<Head, DatabaseFault>
    ensures { Learns C.Store tables.old tables.new result (λ records head.
        (head.now ≡ now) × (head.last ≡ records.last)) }
{
    let last = tables.last()?;
    Ok(Head {
        now,
        last,
        policy: Policy::usual(),
        held: 0,
    })
}

pub(crate) fn certificate_of<C: Alter>(
    tables: &mut Tables<C>,
    serial: Serial,
) -> Result<(Option<CertRow>, Option<RevocationRow>), DatabaseFault>
    ensures { Learns C.Store tables.old tables.new result (λ records it.
        (it.0 ≡ certificate_in records.certificates serial)
        × (it.1 ≡ revocation_in records.revocations serial)) }
{
    let certificate = tables.cert(serial)?;
    let revocation = tables.revocation(serial)?;
    Ok((certificate, revocation))
}

/// Whether the number is below 10^18 (18 digits) and thisUpdate before `CLOCK_END` (9999-12-22), as reg_core requires. A register writes no others.
fn can_be_written(crl: &CrlRow) -> bool
    ensures { IsTrue result ↔ ((crl.now.number < 10 ^ 18) × (crl.now.this_update < clock_end)) }
{
    crl.number < 1_000_000_000_000_000_000 && crl.this_update < Moment::CLOCK_END
}

/// The row of the CRL that was issued last, if any; `Store` for values that no register writes.
pub fn latest_crl<C: Alter>(tables: &mut Tables<C>) -> Result<Option<CrlRow>, DatabaseFault>
    ensures looks { Learns C.Store tables.old tables.new result (λ records row.
        row ≡ option_map row_of (latest records.crls)) }
    ensures within { IfOk result (λ row.
        IfSome row (λ crl. (crl.number < 10 ^ 18) × (crl.this_update < clock_end))) }
{
    let latest = tables.latest_crl()?;
    match latest {
        Some(crl) if !can_be_written(&crl) => Err(DatabaseFault::Store),
        _ => Ok(latest),
    }
}
