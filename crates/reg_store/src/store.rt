//! The store: a register in a database, with its look-ups and its changes.

ghost use Rattle.std.specs.Prelude.{◌≡◌};

use reg_store_tables::Tables;
use sqlite::{Alter, Connection};
use std::marker::Model;
use std::ops::{Deref, DerefMut};

/// A register in an SQL database that `S` stores, such as in a file. It derefs to [`Tables`] for look-ups. In contracts a `Store` is its connection.
#[derive(Drop)]
pub struct Store<S: Alter> {
    pub(crate) tables: Tables<S>,
}

impl<S: Alter> Model for Store<S> {
    ghost use Rattle.sqlite.specs.Held.{Held, held_code};

    ghost Value = { Held S };

    ghost coded = { held_code S.code };

    ghost view = { λ store. store.tables };
}

impl<S: Alter> Deref for Store<S> {
    ghost use Rattle.std.specs.Prelude.{◌≡◌};

    type Target = Tables<S>;

    ghost deref_gives = { λ store tables. tables ≡ store };

    fn deref(&self) -> &Tables<S> {
        &self.tables
    }
}

impl<S: Alter> DerefMut for Store<S> {
    ghost use Rattle.std.specs.Prelude.{◌≡◌};
    ghost use Rattle.std.specs.Borrow.{Lends, sem};
    ghost use Rattle.reg_store.specs.contracts.store.Store.{the_row};
    ghost use Rattle.reg_store_tables.specs.contracts.tables.Tables.{the_row as tables_row};

    ghost deref_mut_gives = { λ store tables. tables ≡ store };

    /// Clause `writes_back`: when the borrow ends, the store is what the caller made of the tables.
    fn deref_mut(&mut self) -> &mut Tables<S>
        ensures* writes_back { sem 𝓛
            (Lends (the_row S.row S.Store) (tables_row S.row S.Store) self.entry result (λ tables. tables)) }
        ensures shows { result.now ≡ self.old }
    {
        &mut self.tables
    }
}

impl<S: Alter> Store<S> {
    /// Returns the store's connection as it is: a transaction that is under way stays so, and none begins. The call closes and writes nothing.
    pub fn into_connection(self) -> Connection<S>
        ensures { result ≡ self }
    {
        let Store { tables } = self;
        let Tables { connection } = tables;
        connection
    }
}
