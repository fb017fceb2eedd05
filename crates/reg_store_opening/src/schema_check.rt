//! Finds the version whose schema a database has.

ghost use Rattle.std.specs.Prelude.{◌≡◌, ◌↔◌, Some, false, IfOk, IsTrue};
ghost use Rattle.sqlite.specs.Held.{state};
ghost use Rattle.reg_store_opening.specs.VersionAndOffice.{SchemaHasVersion, version_or_current};

use crate::schemas::version_of;
use crate::versions::Version;
use reg_store_migration::OlderVersion;
use sqlite::{Alter, Connection};
use std::alloc::{AllocError, Global};

/// Whether `of_schema` (the version of the schema; `None` if it has none) is `version` (found in the table `office`; `None` for 3, the program's).
pub(crate) fn is_same(of_schema: Option<Version>, version: Option<OlderVersion>) -> bool
    ensures { IsTrue result ↔ (of_schema ≡ Some (version_or_current version)) }
{
    match version {
        None => matches!(of_schema, Some(Version::Third)),
        Some(OlderVersion::First) => matches!(of_schema, Some(Version::First)),
        Some(OlderVersion::Second) => matches!(of_schema, Some(Version::Second)),
    }
}

/// The version whose schema the database has, if any. No transaction is under way, so this is the schema that was committed last.
pub(crate) fn schema_version<S: Alter>(
    alloc: Global,
    conn: &Connection<S>,
) -> Result<Option<Version>, AllocError>
    requires { conn.now.in_transaction ≡ false }
    ensures tables { IfOk result (λ tables. SchemaHasVersion tables (state S.Store conn.now).now.schema) }
    ensures settled { IsTrue (state S.Store conn.now).is_open
        → (state S.Store conn.now).now ≡ (state S.Store conn.now).committed }
{
    // `prove!` is Rattle's `debug_assert!`, proved before the program runs. The clause `settled` follows from it.
    prove!(conn.is_autocommit());
    version_of(alloc, conn.schema())
}
