//! Laws of lines and rows. The functions do nothing: their contracts are the laws. Proofs of other crates cite `rows_are_read`.

ghost use Rattle.reg_lines.specs.Laws.{ImportsTextTwice, RegistrationsAreRead, RowsMeanWhatIsRead};

use reg_office_api::Office;

/// Four fields that spell a registration are read as that registration. What a row means is the command that is read from it.
pub fn rows_are_read()
    ensures read { RegistrationsAreRead }
    ensures means { RowsMeanWhatIsRead }
{}

/// With any office and signer: a text is imported twice over sound records at one moment, with nothing between. If both imports run to their end, and
/// the first has no fault among its replies, the second adds no certificate: a row that got `registered` or `same` gets `same` or a fault.
pub fn import_twice<O: Office>()
    ensures { ImportsTextTwice O.signs }
{}
