//! Recognizes the version of a register by its schema.

ghost use Rattle.std.specs.Prelude.{◌≡◌, ◌↔◌, Some, IfOk, IsTrue};
ghost use Rattle.reg_store_tables.specs.Schema.{register_schema};
ghost use Rattle.reg_store_opening.specs.Versions.{version_schema};

use crate::expected_schema::{add_derived_tables, add_records, add_schedule_and_indexes};
use crate::same::Same;
use crate::versions::Version;
use sqlite_schema::schema::Schema;
use std::alloc::{AllocError, Global};

/// The version that has exactly this schema: the same tables (columns, keys, CHECKs, references) and the same indexes, made in the same order, and
/// no view or trigger. `None` if no version has it. `made` is the schema of version 1, then of 2 and 3: each has all of the one before.
pub fn version_of(alloc: Global, schema: &Schema) -> Result<Option<Version>, AllocError>
    ensures { IfOk result
        (λ found. (version : Version) → (found ≡ Some version) ↔ (schema.now ≡ version_schema version)) }
{
    let mut made = Schema::new(alloc);
    add_records(alloc, &mut made)?;
    if schema.is_same(&made) {
        return Ok(Some(Version::First));
    }
    add_derived_tables(alloc, &mut made)?;
    if schema.is_same(&made) {
        return Ok(Some(Version::Second));
    }
    add_schedule_and_indexes(alloc, &mut made)?;
    if schema.is_same(&made) {
        return Ok(Some(Version::Third));
    }
    Ok(None)
}

fn is_third(version: Option<Version>) -> bool
    ensures { IsTrue result ↔ (version ≡ Some Version.Third) }
{
    match version {
        Some(Version::Third) => true,
        _ => false,
    }
}

/// Whether a schema is that of a register of version 3, the program's.
pub fn is_register(alloc: Global, schema: &Schema) -> Result<bool, AllocError>
    ensures { IfOk result (λ is. IsTrue is ↔ (schema.now ≡ register_schema)) }
{
    let version = version_of(alloc, schema)?;
    Ok(is_third(version))
}
