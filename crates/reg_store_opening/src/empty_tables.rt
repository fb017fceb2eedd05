//! Makes the tables and indexes of a register, without rows. reg_store_tables `schema.rt` has their SQL, and says what each table holds.

ghost use Rattle.reg_store_tables.specs.Schema.{no_schema, record_tables, register_schema};
ghost use Rattle.reg_store_tables.specs.Stays.{Stepped};
ghost use Rattle.reg_store_tables.specs.Steps.{Makes};
ghost use Rattle.reg_store_opening.specs.Blank.{Grows, entry_tables};

use reg_store_migration::missing_tables::{define, make_derived_tables, make_schedule_and_indexes};
use reg_store_tables::{DatabaseFault, schema};
use sqlite::{Alter, Transaction};

fn make_entry_tables<S: Alter>(tx: &mut Transaction<'_, S>) -> Result<(), DatabaseFault>
    ensures made { Makes S.Store tx.old tx.new result (Grows no_schema entry_tables) }
    ensures stepped { Stepped S.Store tx.old tx.new }
{
    define(tx, schema::OFFICE)?;
    define(tx, schema::SUBSCRIBER)?;
    define(tx, schema::ORDERS)?;
    define(tx, schema::CERT)
}

fn make_revocation_tables<S: Alter>(tx: &mut Transaction<'_, S>) -> Result<(), DatabaseFault>
    ensures made { Makes S.Store tx.old tx.new result (Grows entry_tables record_tables) }
    ensures stepped { Stepped S.Store tx.old tx.new }
{
    define(tx, schema::REQUEST)?;
    define(tx, schema::REVOCATION)?;
    define(tx, schema::CRL)
}

pub(crate) fn make_empty_tables<S: Alter>(tx: &mut Transaction<'_, S>) -> Result<(), DatabaseFault>
    ensures made { Makes S.Store tx.old tx.new result (Grows no_schema register_schema) }
    ensures stepped { Stepped S.Store tx.old tx.new }
{
    make_entry_tables(tx)?;
    make_revocation_tables(tx)?;
    make_derived_tables(tx)?;
    make_schedule_and_indexes(tx)
}
