//! The line that reports an audit's result, with its LF. Errors: out of memory. The tables `standing`, `kept` and `listed` are those of
//! [`RegisterTable`].

ghost use Rattle.std.specs.Prelude.{◌≡◌, ◌++◌, IfOk};
ghost use Rattle.std.specs.Fmt.{decimal};
ghost use Rattle.reg_lines.specs.AuditLines.{broken_text, sound_text, table_name, why_text};

use reg_core::{Audited, BrokenRow, Decimal, Defect, RegisterTable};
use std::alloc::{AllocError, Global};

/// The line for a schema that is not a register's, even if only a key, a CHECK, a view, a trigger or the order of creation differs.
pub const OTHER_SCHEMA: &str = "broken: schema: not exactly a register's tables and indexes\n";

#[tactic(auto, unfolding(crate::specs::AuditLines::table_name))]
fn name_of(table: RegisterTable) -> &'static str
    ensures { result.now ≡ table_name table }
{
    match table {
        RegisterTable::Office => "office",
        RegisterTable::Subscriber => "subscriber",
        RegisterTable::Orders => "orders",
        RegisterTable::Cert => "cert",
        RegisterTable::Request => "request",
        RegisterTable::Revocation => "revocation",
        RegisterTable::Crl => "crl",
        RegisterTable::Standing => "standing",
        RegisterTable::Kept => "kept",
        RegisterTable::Listed => "listed",
    }
}

#[tactic(auto, unfolding(crate::specs::AuditLines::why_text))]
fn text_of(why: Defect) -> &'static str
    ensures { result.now ≡ why_text why }
{
    match why {
        Defect::PastClockEnd => "a moment at or after 9999-12-22T00:00:00Z",
        Defect::NeverAccepted => "a last accepted moment that no command set",
        Defect::AboveCap => "more rows than the policy's cap",
        Defect::OutOfOrder =>
            "its number is not one more than that of the row before it, or not 1 in the first row",
        Defect::BadName => "a name that no command takes",
        Defect::SameName => "an earlier row has the same name",
        Defect::BadDays => "days that no schedule allows",
        Defect::SameSerial => "an earlier row has the same serial number",
        Defect::SameOrder => "an earlier row fills the same order",
        Defect::SameRequest => "an earlier row has the same request",
        Defect::NoSubscriber => "no such subscriber",
        Defect::NoOrder => "no such order",
        Defect::ReversedValidity => "its notBefore is after its notAfter",
        Defect::TooLong => "a longer validity than its order allows",
        Defect::NoCertificate => "no such certificate",
        Defect::NoRequest => "no such request for this serial number",
        Defect::ByDeclined => "its request was declined",
        Defect::OtherReason => "another reason than that of its request's ground",
        Defect::AfterLast => "its moment is after the last accepted one",
        Defect::AfterEnd => "its moment is after the end of the certificate",
        Defect::AfterRevocation => "its moment is after the revocation of its serial number",
        Defect::Earlier => "its moment is before that of the row before it",
        Defect::NoFirst => "its first CRL is neither an issued one nor the next one",
        Defect::WrongFirst => "its first CRL is not the first one after its moment",
        Defect::EarlierFirst => "its first CRL is before that of the row before it",
        Defect::ThisUpdateDecreases => "its thisUpdate is before that of the CRL before it",
        Defect::DerivedMismatch =>
            "differs from the records, or a row with a lower serial number is missing",
        Defect::OtherBytes => "its bytes do not encode the CRL that the records give",
        Defect::WrongCounts => "its counts are not those of the records",
        Defect::NoValue => "a value that no register writes, or not exactly one row in the table",
    }
}

fn with(text: Vec<u8>, more: &[u8]) -> Result<Vec<u8>, AllocError>
    ensures { IfOk result (λ made. made.items ≡ text.items ++ more.now) }
{
    let mut text = text;
    text.extend_from_slice(more)?;
    Ok(text)
}

fn with_number(text: Vec<u8>, label: &[u8], number: u64) -> Result<Vec<u8>, AllocError>
    ensures { IfOk result (λ made. made.items ≡ text.items ++ label.now ++ decimal number) }
{
    let text = with(text, label)?;
    with(text, Decimal::of(number).as_bytes())
}

/// The line for a register in which no row breaks a rule.
pub fn sound_line(alloc: Global, found: Audited) -> Result<Vec<u8>, AllocError>
    ensures { IfOk result (λ line. line.items ≡ sound_text found) }
{
    let text = with_number(Vec::new(alloc), b"sound, ", found.certificates as u64)?;
    let text = with_number(text, b" certificates, ", found.revoked as u64)?;
    let text = with_number(text, b" revoked, ", found.crls as u64)?;
    with(text, b" CRLs\n")
}

/// The line for a row that breaks a rule.
pub fn broken_line(alloc: Global, broken: BrokenRow) -> Result<Vec<u8>, AllocError>
    ensures { IfOk result (λ line. line.items ≡ broken_text broken) }
{
    let text = with(Vec::new(alloc), b"broken: ")?;
    let text = with(text, name_of(broken.table).as_bytes())?;
    let text = with_number(text, b" ", broken.row)?;
    let text = with(text, b": ")?;
    let text = with(text, text_of(broken.why).as_bytes())?;
    with(text, b"\n")
}
