ghost use Rattle.std.specs.Prelude.{◌≡◌, false, IfOk, IfSome, OnOk};
ghost use Rattle.sqlite.specs.Held.{state};
ghost use Rattle.sqlite.specs.State.{HasCleanDisk};
ghost use Rattle.reg_core.specs.Crls.{next_number, number_after};
ghost use Rattle.reg_core.specs.Records.{Records};
ghost use Rattle.reg_der.specs.Authority.{with_identifier, HasIdentifier};
ghost use Rattle.reg_der.specs.Issuers.{with_key_identifier};
ghost use Rattle.reg_store_tables.specs.Kept.{ShowsKept};
ghost use Rattle.reg_store_tables.specs.Stays.{Changed, Looked};
ghost use Rattle.reg_office.specs.AfterStoppedCommand.{HoldsOfShown, IsIdentified};

use reg_core::{CrlRow, Label};
use reg_der::Issuer;
use reg_store::{DatabaseFault, Store, Tables};
use sqlite::Alter;
use std::alloc::Global;

fn next_crl_number<C: Alter>(tables: &mut Tables<C>) -> Result<u64, DatabaseFault>
    ensures found { HoldsOfShown C.Store tables.old tables.new
        (λ records. IfOk result (λ number. number ≡ next_number records.crls)) }
    ensures looked { Looked C.Store tables.old tables.new }
{
    let latest = tables.latest_crl()?;
    next_number_after(latest).ok_or(DatabaseFault::Store)
}

fn next_number_after(latest: Option<CrlRow>) -> Option<u64>
    ensures { IfSome result (λ number. number ≡ number_after latest) }
{
    match latest {
        Some(latest) => latest.number.checked_add(1),
        None => Some(1),
    }
}

/// The issuer with these octets (1 to 64) as the key identifier of CRLs from number `first` on; `first` is the next CRL's number.
fn identified<C: Alter>(
    tables: &mut Tables<C>,
    alloc: Global,
    octets: Label,
) -> Result<Issuer, DatabaseFault>
    ensures found { HoldsOfShown C.Store tables.old tables.new (λ records. IfOk result
        (λ issuer. issuer ≡ with_identifier records.issuer (next_number records.crls) octets)) }
    ensures follows { HoldsOfShown C.Store tables.old tables.new
        (λ records. OnOk result (HasIdentifier records.issuer (next_number records.crls) octets)) }
    ensures looked { Looked C.Store tables.old tables.new }
{
    let first = next_crl_number(tables)?;
    let issuer = tables.issuer()?;
    match issuer.with_key_identifier(alloc, first, octets) {
        Ok(issuer) => Ok(issuer),
        Err(_) => Err(DatabaseFault::Memory),
    }
}

/// Sets the authority key identifier of CRLs (RFC 5280 5.2.1) from the next one on. It replaces the one set before, or the SHA-1 of the issuer's key.
pub(crate) fn set_key_identifier<C: Alter>(
    store: &mut Store<C>,
    alloc: Global,
    octets: Label,
) -> Result<(), DatabaseFault>
    ensures ok { (records : Records) → ShowsKept C.Store store.old records
        → HasCleanDisk (state C.Store store.new)
        → OnOk result (ShowsKept C.Store store.new (with_key_identifier records octets)) }
    ensures follows { (records : Records) → ShowsKept C.Store store.old records
        → HasCleanDisk (state C.Store store.new)
        → OnOk result (HasIdentifier records.issuer (next_number records.crls) octets) }
    ensures changed { Changed C.Store store.old store.new (IsIdentified C.Store store.old octets) result }
    ensures idle { store.old.in_transaction ≡ false → store.new.in_transaction ≡ false }
{
    let issuer = identified(store, alloc, octets)?;
    store.set_issuer(&issuer)
}
