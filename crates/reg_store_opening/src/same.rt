//! Compares two schemas of the crate `sqlite_schema`, part by part.

ghost use Rattle.std.specs.Prelude.{◌≡◌, ◌↔◌, IsTrue};

use sqlite_items::Items;
use sqlite_schema::schema::{Column, Index, Reference, Schema, Stamps, Table, View};
use sqlite_value::keys::Order;
use sqlite_value::value::Bytes;

pub(crate) trait Same {
    fn is_same(&self, other: &Self) -> bool
        ensures { IsTrue result ↔ (self.now ≡ other.now) };
}

fn are_same<T: Same>(left: &[T], right: &[T]) -> bool
    ensures { IsTrue result ↔ (left.entry.now ≡ right.entry.now) }
{
    let mut left = left;
    let mut right = right;
    while let [first, rest @ ..] = left {
        let [second, others @ ..] = right else {
            return false;
        };
        if !first.is_same(second) {
            return false;
        }
        left = rest;
        right = others;
    }
    right.is_empty()
}

impl<T: Same> Same for Items<T> {
    fn is_same(&self, other: &Items<T>) -> bool {
        are_same(self.as_slice(), other.as_slice())
    }
}

impl<T: Same> Same for Option<T> {
    fn is_same(&self, other: &Option<T>) -> bool {
        match self {
            None => other.is_none(),
            Some(one) => match other {
                None => false,
                Some(another) => one.is_same(another),
            },
        }
    }
}

impl Same for usize {
    fn is_same(&self, other: &usize) -> bool {
        *self == *other
    }
}

impl Same for Bytes {
    fn is_same(&self, other: &Bytes) -> bool {
        self.as_slice() == other.as_slice()
    }
}

// The sort order of an index: `digits` has three bits for each column, which give its collation and whether it descends.
impl Same for Order {
    fn is_same(&self, other: &Order) -> bool {
        self.digits == other.digits
    }
}

impl Same for Column {
    fn is_same(&self, other: &Column) -> bool {
        self.name.is_same(&other.name)
            && self.kind == other.kind
            && self.is_strict == other.is_strict
            && self.not_null == other.not_null
            && self.default.is_same(&other.default)
            && self.collation == other.collation
    }
}

impl Same for Reference {
    fn is_same(&self, other: &Reference) -> bool {
        self.columns.is_same(&other.columns)
            && self.parent.is_same(&other.parent)
            && self.parent_columns.is_same(&other.parent_columns)
            && self.on_delete == other.on_delete
            && self.on_update == other.on_update
            && self.is_deferred == other.is_deferred
    }
}

// The defaults that read the time, such as CURRENT_TIMESTAMP: the places of their columns, their expressions (`terms`), and the `strftime` formats.
impl Same for Stamps {
    fn is_same(&self, other: &Stamps) -> bool {
        self.places.is_same(&other.places)
            && self.terms.is_same(&other.terms)
            && self.formats.is_same(&other.formats)
    }
}

/// Whether two tables have the same name, `tree` (which B-tree, by order of creation), columns, rowid column (`key`), AUTOINCREMENT (`is_counted`).
fn have_same_columns(left: &Table, right: &Table) -> bool
    ensures { IsTrue result ↔ ((left.now.name ≡ right.now.name) × (left.now.tree ≡ right.now.tree)
        × (left.now.columns ≡ right.now.columns)
        × (left.now.key ≡ right.now.key) × (left.now.is_counted ≡ right.now.is_counted)) }
{
    left.name.is_same(&right.name)
        && left.tree == right.tree
        && left.columns.is_same(&right.columns)
        && left.key == right.key
        && left.is_counted == right.is_counted
}

/// Whether two tables have the same PRIMARY KEY, the same keys with an automatic index (`uniques`), and the same sort orders of these (`orders`).
fn have_same_keys(left: &Table, right: &Table) -> bool
    ensures { IsTrue result ↔ ((left.now.primary ≡ right.now.primary)
        × (left.now.uniques ≡ right.now.uniques) × (left.now.orders ≡ right.now.orders)) }
{
    left.primary.is_same(&right.primary)
        && left.uniques.is_same(&right.uniques)
        && left.orders.is_same(&right.orders)
}

/// Whether two tables have the same CHECKs, references, columns whose default is no literal (`computed`), and defaults that read the time (`stamps`).
fn have_same_rules(left: &Table, right: &Table) -> bool
    ensures { IsTrue result
        ↔ ((left.now.checks ≡ right.now.checks) × (left.now.references ≡ right.now.references)
        × (left.now.computed ≡ right.now.computed) × (left.now.stamps ≡ right.now.stamps)) }
{
    left.checks.is_same(&right.checks)
        && left.references.is_same(&right.references)
        && left.computed.is_same(&right.computed)
        && left.stamps.is_same(&right.stamps)
}

impl Same for Table {
    fn is_same(&self, other: &Table) -> bool {
        have_same_columns(self, other)
            && have_same_keys(self, other)
            && have_same_rules(self, other)
    }
}

impl Same for Index {
    fn is_same(&self, other: &Index) -> bool {
        self.name.is_same(&other.name)
            && self.tree == other.tree
            && self.table == other.table
            && self.columns.is_same(&other.columns)
            && self.order.is_same(&other.order)
            && self.is_unique == other.is_unique
    }
}

// A `View` is a view; or it stands for a part of a table that the crate `sqlite` keeps but can't use. `foreign`: the name of that table. `binds`: a
// trigger or an unreadable index, because of which the table can't be used. `is_bound`: such a table, if readable. A register has none of these.
impl Same for View {
    fn is_same(&self, other: &View) -> bool {
        self.name.is_same(&other.name)
            && self.tree == other.tree
            && self.sql.is_same(&other.sql)
            && self.foreign.is_same(&other.foreign)
            && self.binds == other.binds
            && self.is_bound == other.is_bound
    }
}

impl Same for Schema {
    fn is_same(&self, other: &Schema) -> bool {
        self.tables.is_same(&other.tables)
            && self.indexes.is_same(&other.indexes)
            && self.views.is_same(&other.views)
    }
}
