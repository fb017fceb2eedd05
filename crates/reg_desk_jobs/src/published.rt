//! Compares a published CRL with a register, before the register is served.

ghost use Rattle.std.specs.Prelude.{◌≡◌, ◌++◌, ◌∷◌, [], ℕ, IfOk, OnOk};
ghost use Rattle.reg_core.specs.Records.{Records};
ghost use Rattle.reg_core.specs.Status.{is_revoked as revokes, status};
ghost use Rattle.reg_core.specs.declared.command.Query.TheVariants.{Status as AskStatus};
ghost use Rattle.reg_office_api.specs.Answered.{IsAnswered};
ghost use Rattle.reg_office_api.specs.Items.{items_of};
ghost use Rattle.reg_office_api.specs.Calls.{LooksIn};
ghost use Rattle.reg_desk_jobs.specs.Conversations.{IsInput};
ghost use Rattle.reg_desk_jobs.specs.Published.{AppendsMissing, Compares, FindsMissing, latest_number, missing_at, missing_crl, missing_revocation};

use crate::output_lines::print_text;
use reg_core::{CrlRow, Decimal, Fault, Moment, Outcome, Query, Reply, Serial, Status};
use reg_crl::{next_entry, read_crl};
use reg_desk_cli::Failure;
use reg_office_api::Office;
use std::alloc::{AllocError, Global};
use std::io::{ErrorKind, Read, Write};

/// Writes a line for each item of the published CRL (`reader`) that the register lacks: the CRL's number, if it is above that of the register's
/// latest CRL, and each listed serial number that is not revoked. The CRL's issuer and signature are not verified. Errors: `LacksPublished` if lines
/// were written; `NotACrl` if the bytes are no CRL with a number, or an entry is invalid; `Read`; `Write`; `Memory`; `Store`.
pub(crate) fn check_published<O: Office, R: Read, W: Write>(
    alloc: Global,
    office: &mut O,
    reader: &mut R,
    writer: &mut W,
) -> Result<(), Failure>
    ensures compares { LooksIn O.Office
        (λ records.
        Compares records (R.remaining reader.old) (W.contents writer.old) (W.contents writer.new) result)
        office.old office.new }
    ensures unwritten { OnOk result (writer.new ≡ writer.old) }
{
    let bytes = read_all(alloc, reader)?;
    let lines = missing_lines(alloc, office, &bytes)?;
    if lines.is_empty() {
        return Ok(());
    }
    print_text(writer, &lines)?;
    Err(Failure::LacksPublished)
}

fn read_all<R: Read>(alloc: Global, reader: &mut R) -> Result<Vec<u8>, Fault>
    ensures { IfOk result (λ bytes. IsInput (R.remaining reader.old) bytes.items) }
{
    let mut bytes = Vec::new(alloc);
    match reader.read_to_end(&mut bytes) {
        Ok(_) => Ok(bytes),
        Err(error) if error.kind() == ErrorKind::OutOfMemory => Err(Fault::Memory),
        Err(_) => Err(Fault::Read),
    }
}

/// The lines of [`check_published`] for the CRL in these bytes. `summary.last` is the last accepted command's moment.
fn missing_lines<O: Office>(alloc: Global, office: &mut O, bytes: &[u8]) -> Result<Vec<u8>, Failure>
    ensures { LooksIn O.Office (λ records. FindsMissing records bytes.now (items_of result))
        office.old office.new }
{
    let Some(crl) = read_crl(bytes) else {
        return Err(Failure::NotACrl);
    };
    let summary = office.summary()?;
    let mut lines = Vec::new(alloc);
    put_missing_crl(&mut lines, summary.latest, crl.number)?;
    put_missing_revocations(alloc, office, summary.last, crl.revoked, &mut lines)?;
    Ok(lines)
}

/// Adds a line if the published CRL's number is above that of the register's latest CRL (0 if the register has no CRL).
fn put_missing_crl(lines: &mut Vec<u8>, latest: Option<CrlRow>, number: u64) -> Result<(), Fault>
    ensures { OnOk result (lines.new.items ≡ lines.old.items ++ missing_crl latest number) }
{
    let most = latest_number(latest);
    if number <= most {
        return Ok(());
    }
    put_line(lines, b"missing crl ", Decimal::of(number).as_bytes())
}

fn latest_number(latest: Option<CrlRow>) -> u64
    ensures { result ≡ latest_number latest }
{
    match latest {
        Some(crl) => crl.number,
        None => 0,
    }
}

/// Adds a line for each entry whose serial number is not revoked at `last`. `entries` is the DER in revokedCertificates (RFC 5280 5.1). `NotACrl` if
/// an entry can't be read. `next_entry` gives the first entry's serial number, and the DER after that entry.
fn put_missing_revocations<O: Office>(
    alloc: Global,
    office: &mut O,
    last: Moment,
    entries: &[u8],
    lines: &mut Vec<u8>,
) -> Result<(), Failure>
    ensures { LooksIn O.Office (λ records.
        AppendsMissing records last entries.now lines.old.items lines.new.items result)
        office.old office.new }
{
    let mut rest = entries;
    while !rest.is_empty() {
        let Some(entry) = next_entry(rest) else {
            return Err(Failure::NotACrl);
        };
        put_missing_revocation(alloc, office, last, entry.0, lines)?;
        rest = entry.1;
    }
    Ok(())
}

fn put_missing_revocation<O: Office>(
    alloc: Global,
    office: &mut O,
    last: Moment,
    serial: Serial,
    lines: &mut Vec<u8>,
) -> Result<(), Fault>
    ensures { LooksIn O.Office (λ records.
        OnOk result (lines.new.items ≡ lines.old.items ++ missing_at records last serial))
        office.old office.new }
{
    let revoked = is_revoked(alloc, office, last, serial)?;
    put_unless_revoked(lines, revoked, serial)
}

fn put_unless_revoked(lines: &mut Vec<u8>, revoked: bool, serial: Serial) -> Result<(), Fault>
    ensures { OnOk result (lines.new.items ≡ lines.old.items ++ missing_revocation revoked serial) }
{
    if revoked {
        return Ok(());
    }
    put_line(lines, b"missing revocation ", &serial.text())
}

/// Whether a serial number is revoked. Asks at `last`, because the clock may be behind it. The answer is the same at each later moment.
fn is_revoked<O: Office>(
    alloc: Global,
    office: &mut O,
    last: Moment,
    serial: Serial,
) -> Result<bool, Fault>
    ensures { LooksIn O.Office (λ records. IfOk result (λ is. is ≡ revokes (status records serial last)))
        office.old office.new }
{
    let answered = office.ask(alloc, last, &Query::Status(serial));
    revoked_of(answered)
}

fn revoked_of(outcome: Outcome) -> Result<bool, Fault>
    ensures { (records : Records) (now serial : ℕ) → IsAnswered records now (AskStatus serial) outcome
        → IfOk result (λ is. is ≡ revokes (status records serial now)) }
{
    match outcome {
        Ok(Reply::Status(Status::Revoked { .. })) => Ok(true),
        Ok(Reply::Status(_)) => Ok(false),
        // The office's contract excludes any other reply to a query for a status.
        Ok(_) => Err(Fault::Store),
        Err(fault) => Err(fault),
    }
}

fn put_line(lines: &mut Vec<u8>, what: &[u8], value: &[u8]) -> Result<(), Fault>
    ensures { OnOk result (lines.new.items ≡ lines.old.items ++ (what.now ++ value.now ++ 10 ∷ [])) }
{
    match put_parts(lines, what, value) {
        Ok(()) => Ok(()),
        Err(_) => Err(Fault::Memory),
    }
}

fn put_parts(lines: &mut Vec<u8>, what: &[u8], value: &[u8]) -> Result<(), AllocError>
    ensures { OnOk result (lines.new.items ≡ lines.old.items ++ (what.now ++ value.now ++ 10 ∷ [])) }
{
    lines.extend_from_slice(what)?;
    lines.extend_from_slice(value)?;
    lines.push(b'\n')?;
    Ok(())
}
