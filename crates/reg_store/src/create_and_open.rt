//! Creates a register in an empty database, and opens an existing one.

ghost use Rattle.std.specs.Prelude.{◌≡◌, false, IfOk, IfErr, MatchResult};
ghost use Rattle.reg_store_opening.specs.Opens.{Opens, IsFailedOpen, Creates, IsFailedCreate};

use crate::store::Store;
use reg_core::Policy;
use reg_der::Issuer;
use reg_store_tables::{StoreFault, Tables};
use sqlite::{Alter, Connection};
use std::alloc::Global;

/// Why no store was created or opened, and the caller's connection, which is in no transaction. The tables are as they were. But if the disk failed
/// in a commit, the database is as before, or wholly created or migrated, once it is opened again.
#[derive(Drop)]
pub struct Unopened<S: Alter> {
    pub fault: StoreFault,
    pub connection: Connection<S>,
}

impl<S: Alter> Store<S> {
    /// Makes a register with no records in an empty database. Errors: those of [`reg_store_opening::create`].
    pub fn create(
        connection: Connection<S>,
        issuer: Issuer,
        policy: Policy,
    ) -> Result<Store<S>, Unopened<S>>
        requires { connection.in_transaction ≡ false }
        ensures creates { IfOk result (λ store. Creates S.Store connection store issuer policy) }
        ensures uncreated { IfErr result (λ unopened.
            IsFailedCreate S.Store connection unopened.connection issuer policy unopened.fault) }
        ensures idle { MatchResult result (λ store. store.in_transaction ≡ false)
            (λ unopened. unopened.connection.in_transaction ≡ false) }
    {
        let mut connection = connection;
        match reg_store_opening::create(&mut connection, &issuer, &policy) {
            Ok(()) => Ok(Store {
                tables: Tables { connection },
            }),
            Err(fault) => Err(Unopened { fault, connection }),
        }
    }

    /// Opens the register in a database. Version 1 or 2 is migrated to 3 in one transaction; the records stay. Errors as [`reg_store_opening::open`].
    pub fn open(alloc: Global, connection: Connection<S>) -> Result<Store<S>, Unopened<S>>
        requires { connection.in_transaction ≡ false }
        ensures opens { IfOk result (λ store. Opens S.Store connection store) }
        ensures unopened { IfErr result (λ unopened.
            IsFailedOpen S.Store connection unopened.connection unopened.fault) }
        ensures idle { MatchResult result (λ store. store.in_transaction ≡ false)
            (λ unopened. unopened.connection.in_transaction ≡ false) }
    {
        let mut connection = connection;
        match reg_store_opening::open(alloc, &mut connection) {
            Ok(()) => Ok(Store {
                tables: Tables { connection },
            }),
            Err(fault) => Err(Unopened { fault, connection }),
        }
    }
}
