ghost use Rattle.std.specs.Prelude.{◌≡◌, Some, IfSome};
ghost use Rattle.sqlite_value.specs.declared.value.Value.TheVariants.{Text};
ghost use Rattle.sqlite_value.specs.Order.{column};
ghost use Rattle.reg_store_tables.specs.DerivedRows.{letter_text};
ghost use Rattle.reg_audit.specs.DerivedAsRead.{letter_in};

use crate::derived_rows::Letter;
use sqlite::Row;
use sqlite::types::ValueRef;

/// The state letter of a certificate in column `at` of the row; `None` for any other value.
pub(crate) fn letter_at(row: &Row, at: usize) -> Option<Letter>
    ensures read { (letter : Letter) → column row.now at ≡ Text (letter_text (letter_in letter))
        → result ≡ Some letter }
    ensures in_column { IfSome result (λ letter. column row.now at ≡ Text (letter_text (letter_in letter))) }
{
    match row.get_ref(at) {
        Ok(ValueRef::Text(b"G")) => Some(Letter::Good),
        Ok(ValueRef::Text(b"R")) => Some(Letter::Revoked),
        Ok(ValueRef::Text(b"X")) => Some(Letter::Expired),
        Ok(_) => None,
        Err(_) => None,
    }
}
