//! The type `Tables`: the SQL tables of a register, whose look-ups other files add as methods.

use sqlite::{Alter, Connection};
use std::marker::Model;

/// The tables of a register in an SQL database that `S` keeps. Errors of the look-ups: `Memory`; `Store` if the database fails, a row has an invalid
/// value, or the rows are not those of a register. In contracts a `Tables` is its connection, so that the definitions about connections apply to it.
#[derive(Drop)]
pub struct Tables<S: Alter> {
    pub connection: Connection<S>,
}

impl<S: Alter> Model for Tables<S> {
    ghost use Rattle.sqlite.specs.Held.{Held, held_code};

    ghost Value = { Held S };

    ghost coded = { held_code S.code };

    ghost view = { λ tables. tables.connection };
}
