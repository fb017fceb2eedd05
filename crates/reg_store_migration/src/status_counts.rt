//! How many certificates have each state letter in the table `standing`: `G` (good), `R` (revoked), `X` (expired).

ghost use Rattle.std.specs.Prelude.{◌≡◌, ℕ, [], ◌∷◌, Bool, bytes_eq, IfOk};
ghost use Rattle.reg_store_tables.specs.DerivedRows.{Letter, letter_counts, letter_text, with_letter};
ghost use Rattle.reg_store_tables.specs.Rows.{number};
ghost use Rattle.reg_store_tables.specs.Stays.{Stepped};
ghost use Rattle.reg_store_tables.specs.Steps.{Asks};
ghost use Rattle.reg_store_migration.specs.RecordReading.{OfDerivedRows};

use crate::record_reader::ask;
use crate::sql;
use reg_core::Counts;
use reg_store_tables::DatabaseFault;
use sqlite::types::ValueRef;
use sqlite::{Alter, Row, Transaction};

fn count_in(rows: &[Row]) -> Result<u64, DatabaseFault>
    ensures read { (n : ℕ) → rows.now ≡ (number n ∷ []) ∷ [] → IfOk result (λ count. count ≡ n) }
{
    let [row] = rows else {
        return Err(DatabaseFault::Store);
    };
    match row.get_ref(0) {
        Ok(ValueRef::Int(n)) => u64::try_from(n).map_err(|_| DatabaseFault::Store),
        _ => Err(DatabaseFault::Store),
    }
}

fn count_letter<S: Alter>(tx: &mut Transaction<'_, S>, letter: &[u8]) -> Result<u64, DatabaseFault>
    ensures asked { Asks S.Store tx.old tx.new result (λ count.
        OfDerivedRows (λ columns. (test : Letter → Bool)
        → ((of : Letter) → bytes_eq (letter_text of) letter.now ≡ test of)
        → count ≡ with_letter test columns.letters)) }
    ensures stepped { Stepped S.Store tx.old tx.new }
{
    let found = ask(tx, sql::COUNT_LETTER, &[ValueRef::Text(letter)])?;
    count_in(&found)
}

pub(crate) fn counts<S: Alter>(tx: &mut Transaction<'_, S>) -> Result<Counts, DatabaseFault>
    ensures asked { Asks S.Store tx.old tx.new
        result (λ counts. OfDerivedRows (λ columns. counts ≡ letter_counts columns.letters)) }
    ensures stepped { Stepped S.Store tx.old tx.new }
{
    let good = count_letter(tx, b"G")?;
    let revoked = count_letter(tx, b"R")?;
    let expired = count_letter(tx, b"X")?;
    Ok(Counts {
        good,
        revoked,
        expired,
    })
}
