//! The schema of each version, made in memory from the SQL that creates the tables of a register. `made` is the schema so far, `text` a CREATE TABLE
//! or CREATE INDEX. Only an allocation can fail, because each statement is valid and each name is UTF-8. So each error becomes `AllocError`.

ghost use Rattle.std.specs.Prelude.{◌≡◌, ◌<◌, ◌+◌, [], ◌∷◌, ◌++◌, length, Some, Ok, slice_get, IfOk, OnOk};
ghost use Rattle.sqlite_resolve.specs.Compile.{table_defined_by, index_defined_by};
ghost use Rattle.sqlite_catalog.specs.Change.{automatics, next_tree, created, indexed};
ghost use Rattle.sqlite_catalog.specs.Steps.{guard_at};
ghost use Rattle.reg_store_tables.specs.Schema.{no_schema, record_tables, with_derived_tables, register_schema};

use reg_store_tables::schema;
use sqlite_catalog::layout;
use sqlite_items::Items;
use sqlite_resolve::{define_index, define_table};
use sqlite_schema::schema::{Index, Schema, Table};
use std::alloc::{AllocError, Global};

/// Adds the automatic index of the key `table.uniques[at]` (UNIQUE or PRIMARY KEY, not the rowid). Its B-tree's number: `table.tree` + 1 + `at`.
fn add_key(
    alloc: Global,
    indexes: &mut Items<Index>,
    table: &Table,
    name: &str,
    at: usize,
) -> Result<(), AllocError>
    requires within { at < length table.now.uniques }
    requires name { name.now ≡ table.now.name }
    ensures { OnOk result (indexes.new ≡ indexes.old ++ guard_at table.now at ∷ []) }
{
    let columns = table.uniques.as_slice()[at].as_slice();
    let tree = u32::try_from(u64::from(table.tree) + 1 + at as u64).map_err(|_| AllocError)?;
    let index_name = layout::automatic_name(alloc, name, at)?;
    let index = layout::automatic(alloc, table, index_name.as_str(), at, columns, tree)?;
    indexes.push(index)
}

fn add_keys(alloc: Global, indexes: &mut Items<Index>, table: &Table) -> Result<(), AllocError>
    ensures { OnOk result
        (indexes.new ≡ indexes.old ++ automatics table.now 0 (table.now.tree + 1) table.now.uniques) }
{
    let Ok(name) = std::str::from_utf8(table.name.as_slice()) else {
        return Err(AllocError);
    };
    for at in 0..table.uniques.len() {
        add_key(alloc, indexes, table, name, at)?;
    }
    Ok(())
}

/// The number of the next B-tree. Each table and index has one. They are numbered in the order in which they are made.
fn next_tree(made: &Schema) -> Result<u32, AllocError>
    ensures { IfOk result (λ tree. tree ≡ next_tree made.now) }
{
    u32::try_from(layout::next_tree(made)).map_err(|_| AllocError)
}

fn add_table(alloc: Global, made: &mut Schema, text: &str) -> Result<(), AllocError>
    ensures { (table : Table) → table_defined_by text.now ≡ Ok table
        → OnOk result (made.new ≡ created made.old table) }
{
    let Ok(defined) = define_table(alloc, text.as_bytes()) else {
        return Err(AllocError);
    };
    let mut table = defined;
    table.tree = next_tree(made)?;
    add_keys(alloc, &mut made.indexes, &table)?;
    made.tables.push(table)
}

/// Adds an index of the table `made.tables[at]`.
fn add_index(alloc: Global, made: &mut Schema, at: usize, text: &str) -> Result<(), AllocError>
    ensures { (table : Table) → (index : Index) → slice_get made.old.tables at ≡ Some table
        → index_defined_by table text.now ≡ Ok index
        → OnOk result (made.new ≡ indexed made.old table index) }
{
    let tree = next_tree(made)?;
    let table = made.tables.get(at).ok_or(AllocError)?;
    let Ok(defined) = define_index(alloc, table, text.as_bytes()) else {
        return Err(AllocError);
    };
    let mut index = defined;
    index.tree = tree;
    index.table = table.tree;
    made.indexes.push(index)
}

/// Adds to an empty schema the table `office` (one row: version, issuer, policy, last accepted moment) and the tables of the other records.
pub(crate) fn add_records(alloc: Global, made: &mut Schema) -> Result<(), AllocError>
    ensures { made.old ≡ no_schema → OnOk result (made.new ≡ record_tables) }
{
    add_table(alloc, made, schema::OFFICE)?;
    add_table(alloc, made, schema::SUBSCRIBER)?;
    add_table(alloc, made, schema::ORDERS)?;
    add_table(alloc, made, schema::CERT)?;
    add_table(alloc, made, schema::REQUEST)?;
    add_table(alloc, made, schema::REVOCATION)?;
    add_table(alloc, made, schema::CRL)
}

/// Adds the derived tables: `standing` (each certificate's state letter), `kept` (the counts of the letters) and `listed` (the CRL entries).
pub(crate) fn add_derived_tables(alloc: Global, made: &mut Schema) -> Result<(), AllocError>
    ensures { made.old ≡ record_tables → OnOk result (made.new ≡ with_derived_tables) }
{
    add_table(alloc, made, schema::STANDING)?;
    add_table(alloc, made, schema::KEPT)?;
    add_table(alloc, made, schema::LISTED)
}

/// Adds the table `longest` (schedule of longest validities) and two indexes: of the tables made seventh (index 6, `crl`) and eighth (`standing`).
pub(crate) fn add_schedule_and_indexes(alloc: Global, made: &mut Schema) -> Result<(), AllocError>
    ensures { made.old ≡ with_derived_tables → OnOk result (made.new ≡ register_schema) }
{
    add_table(alloc, made, schema::LONGEST)?;
    add_index(alloc, made, 6, schema::CRL_AT)?;
    add_index(alloc, made, 7, schema::STANDING_DUE)
}
