ghost use Rattle.std.specs.Prelude.{◌≡◌, OnOk};
ghost use Rattle.reg_core.specs.Records.{Records};
ghost use Rattle.reg_core.specs.Reached.{ReachedRows};
ghost use Rattle.reg_core.specs.Sound.{SoundRows};
ghost use Rattle.reg_store_tables.specs.DerivedRows.{DerivedRows};
ghost use Rattle.reg_store_tables.specs.Kept.{Kept};
ghost use Rattle.reg_audit.specs.DerivedAsRead.{AreDerivedRowsOf};
ghost use Rattle.reg_audit.specs.Read.{AreOf, IsIndexOf};
ghost use Rattle.reg_audit.specs.CheckFaults.{NotBrokenIf};

use crate::check_fault::CheckFault;
use crate::derived_rows::{StoredDerivedRows, check_counts, listings, same_rows, standings};
use crate::rows::{Rows, RowsBySerial, check_rows};
use reg_core::RegisterTable;
use std::alloc::Global;

/// Checks the derived rows against the records, `rows`, which are sound. `found` has their certificates and revocations by serial number. `letters`:
/// the rows of `standing`, each with a state letter (`G`, `R` or `X`). `listed`: the CRL entry of each revocation, and which CRLs list it.
fn check_derived(
    alloc: Global,
    rows: &Rows<'_>,
    found: &RowsBySerial,
    derived: &StoredDerivedRows<'_>,
) -> Result<(), CheckFault>
    ensures ok { IsIndexOf rows.now found.now → (records : Records) → AreOf rows.now records
        → SoundRows records → (columns : DerivedRows) → AreDerivedRowsOf derived.now columns
        → OnOk result (Kept columns records) }
    ensures broken { IsIndexOf rows.now found.now → (records : Records) → AreOf rows.now records
        → SoundRows records → (columns : DerivedRows) → AreDerivedRowsOf derived.now columns
        → NotBrokenIf (Kept columns records) result }
{
    let letters = standings(alloc, rows.certificates, &found.revocations, rows.last)?;
    check_counts(&letters, derived.counts)?;
    same_rows(alloc, RegisterTable::Standing, derived.letters, letters)?;
    let listed = listings(alloc, rows.revocations, &found.certificates, rows.crls)?;
    same_rows(alloc, RegisterTable::Listed, derived.listed, listed)
}

/// Checks that `rows` obey all rules of a register (`ReachedRows`), and that the derived rows follow from them. Checks no bytes of CRLs. Takes
/// O(n log n) steps for n rows, and one step for each pair of a revocation and a CRL.
pub fn check(
    alloc: Global,
    rows: &Rows<'_>,
    derived: &StoredDerivedRows<'_>,
) -> Result<(), CheckFault>
    ensures sound { (records : Records) → AreOf rows.now records → OnOk result (ReachedRows records) }
    ensures kept { (records : Records) → AreOf rows.now records → (columns : DerivedRows)
        → AreDerivedRowsOf derived.now columns → OnOk result (Kept columns records) }
    ensures broken { (records : Records) → AreOf rows.now records → (columns : DerivedRows)
        → AreDerivedRowsOf derived.now columns
        → NotBrokenIf (ReachedRows records × Kept columns records) result }
{
    let found = check_rows(alloc, rows)?;
    check_derived(alloc, rows, &found, derived)
}
