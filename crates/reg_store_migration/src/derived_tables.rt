//! Rebuilds the derived tables from the records: `standing` (each certificate's state letter), `kept` (the letters' counts), `listed` (CRL entries).

ghost use Rattle.reg_store_tables.specs.Stays.{Stepped};
ghost use Rattle.reg_store_tables.specs.Steps.{Makes, MakesRows};
ghost use Rattle.reg_store_migration.specs.Rebuilds.{FillsLetters, RebuildsDerived};

use crate::derived_listings::rebuild_listed;
use crate::sql;
use crate::status_counts::counts;
use reg_core::Moment;
use reg_store_tables::write_statements::{sql_moment, write};
use reg_store_tables::{DatabaseFault, set_counts};
use sqlite::{Alter, Transaction};

fn fill_letters<S: Alter>(tx: &mut Transaction<'_, S>, last: Moment) -> Result<(), DatabaseFault>
    ensures made { MakesRows S.Store tx.old tx.new result (FillsLetters last) }
    ensures stepped { Stepped S.Store tx.old tx.new }
{
    write(tx, sql::FILL_LETTERS, &[sql_moment(last)])?;
    Ok(())
}

/// Fills the derived tables as of the last accepted moment, `last`. Before the call, their only row is that of `kept`, with counts of 0.
pub(crate) fn rebuild_derived_tables<S: Alter>(
    tx: &mut Transaction<'_, S>,
    last: Moment,
) -> Result<(), DatabaseFault>
    ensures made { Makes S.Store tx.old tx.new result (RebuildsDerived last) }
    ensures stepped { Stepped S.Store tx.old tx.new }
{
    fill_letters(tx, last)?;
    rebuild_listed(tx)?;
    let counts = counts(tx)?;
    set_counts(tx, counts)
}
