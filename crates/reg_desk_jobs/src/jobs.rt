//! The jobs `init`, `script` (without `--clock` and `--strict`), `import`, `crl`, `schedule`, `key-id` and `audit`. An opening error, below, is an
//! error of [`Machine::check_database`] or [`Machine::open_in`].

ghost use Rattle.std.specs.Prelude.{◌≡◌, Result, IfErr, IsTrue, OnErr};
ghost use Rattle.reg_office_api.specs.Items.{items_of};
ghost use Rattle.reg_office_api.specs.Calls.{LeadsIn, LooksIn};
ghost use Rattle.reg_lines.specs.ByCalls.{Lines};
ghost use Rattle.reg_lines.specs.Strict.{StrictEnds};
ghost use Rattle.reg_desk_jobs.specs.Ends.{AuditAt, ChecksMoment, CrlAt, ImportJobEnds, ImportChecked, InitAt, KeyIdAt, CreatesAt, ScheduleAt, ScriptAt};
ghost use Rattle.reg_desk_jobs.specs.Ends.{PrintsResult, PrintsBroken, PrintsLine, PrintsSetResult, ReportsAuditResult};
ghost use Rattle.reg_desk_service.specs.RegisterUses.{exit_of_run};
ghost use Rattle.reg_office_api.specs.LookUps.{IsOfStore};
ghost use Rattle.reg_lines.specs.AuditLines.{broken_text, sound_text};

use crate::lines_job::{check_moment, run_script_over};
use crate::output_lines::print_text;
use reg_core::{AuditResult, Audited, BrokenRow, Fault, Moment, Policy};
use reg_der::Issuer;
use reg_desk_cli::{
    Argument, Failure, ImportJob, NewRegister, ResponderChoice, SignerAddress, Steps,
    issuer_and_policy_of, key_identifier_of, schedule_of,
};
use reg_desk_service::{
    Machine, Reason, audit_at, create_register, ended, keep_reason, open_signed, open_unsigned,
};
use reg_io::{Sink, Source};
use reg_lines::{Ended, OTHER_SCHEMA, broken_line, import, import_strictly, sound_line};
use reg_office_api::Office;
use std::alloc::Global;
use std::cell::Cell;
use std::io::Write;

/// Creates the register `new`, after a check of its issuer and policy. If nothing is at its path, `claim` creates an empty file there (`is_ours`). If
/// the job then fails, it removes that file, unless another program has put tables into it meanwhile (`NotEmpty`). Errors: `BadIssuer`; `BadPolicy`;
/// `NotEmpty` if the file has a table, an index or a view; `Memory`; `Store`; `Write`.
pub fn init<M: Machine, W: Write>(
    alloc: Global,
    machine: &mut M,
    new: &NewRegister<'_>,
    writer: &mut W,
) -> Result<(), Failure>
    ensures { InitAt M.Machine M.Office.Office W.contents machine.old machine.new writer.old writer.new
        new.now result }
{
    let path = new.file.as_str();
    let (issuer, policy) = issuer_and_policy_of(
        alloc,
        &new.name,
        &new.key,
        &new.key_id,
        new.days,
        new.crl_life,
        new.ocsp_life,
        new.cap,
    )?;
    let is_ours = match machine.claim(path) {
        Ok(is_ours) => is_ours,
        Err(_) => return Err(Failure::Fault(Fault::Memory)),
    };
    match make_at(machine, path, issuer, policy, writer) {
        Ok(()) => Ok(()),
        Err(Failure::NotEmpty) => Err(Failure::NotEmpty),
        Err(why) => {
            if is_ours {
                machine.remove(path);
                return Err(why);
            }
            Err(why)
        }
    }
}

fn make_at<M: Machine, W: Write>(
    machine: &mut M,
    path: &str,
    issuer: Issuer,
    policy: Policy,
    writer: &mut W,
) -> Result<(), Failure>
    ensures { CreatesAt M.Machine M.Office.Office W.contents machine.old machine.new writer.old writer.new
        path.now issuer policy
        result }
{
    let office = create_register(machine, path, issuer, policy)?;
    machine.close(path, office);
    print_text(writer, b"created\n")
}

/// Runs the script in `reader` over the register at a path. Without a signer, CRLs get a placeholder digest instead of a signature, and the job warns
/// on standard error when CRL 1 gets one. Errors: opening errors; those of [`reg_lines::run_script`].
pub fn script<M: Machine, R: Source, W: Sink>(
    alloc: Global,
    machine: &mut M,
    path: &str,
    signer: &Option<SignerAddress<'_>>,
    reader: &mut R,
    writer: &mut W,
) -> Result<(), Failure>
    ensures { ScriptAt M.Machine M.Office.Office R.remaining W.contents R.failed W.failed
        machine.old machine.new reader.old reader.new writer.old writer.new path.now signer.now result }
{
    // `open_signed` also takes no signer (`None`). The signer of CRLs also signs the answers to `ocsp` lines, which embed no certificate.
    let responder = ResponderChoice::Issuer { certificate: None };
    let mut office = open_signed(machine, path, signer, &responder)?;
    let is_unsigned = signer.is_none();
    let ran = run_script_over::<M, R, W>(alloc, machine, &mut office, is_unsigned, reader, writer);
    machine.close(path, office);
    ended(ran)
}

/// Imports the rows in `reader` into a register, all at one moment: the given one, or that of the clock at the start. The clock's moment is refused
/// (`BadClock`) if it is more than 30 days past the last accepted command's, unless the operator accepts that. A strict import ends at the first
/// refusal or fault (`Refused`), and runs no last row without its line end (`NoLineEnd`). If the refusal E08, E09 or E12 (docs/RULES.md) ends it,
/// `reason` gets the details for `--why`. Other errors: `Read` if the clock can't be read; opening errors; those of [`import`].
pub fn import_rows<M: Machine, R: Source, W: Sink>(
    alloc: Global,
    machine: &mut M,
    rows: &ImportJob<'_>,
    reason: &Cell<Option<Reason>>,
    reader: &mut R,
    writer: &mut W,
) -> Result<(), Failure>
    ensures { ImportJobEnds M.Machine M.Office.Office R.remaining W.contents R.failed W.failed
        machine.old machine.new reader.old reader.new writer.old writer.new rows.now result }
{
    match rows.moment {
        Some(now) => import_at(alloc, machine, rows, now, false, reason, reader, writer),
        None => match machine.moment() {
            Ok(now) => {
                let is_checked = !rows.accepts_clock;
                import_at(
                    alloc, machine, rows, now, is_checked, reason, reader, writer,
                )
            }
            Err(_) => Err(Failure::Fault(Fault::Read)),
        },
    }
}

/// Imports at the moment `now`. With `is_checked`, that moment is the clock's, and is refused if it is too far ahead.
fn import_at<M: Machine, R: Source, W: Sink>(
    alloc: Global,
    machine: &mut M,
    rows: &ImportJob<'_>,
    now: Moment,
    is_checked: bool,
    reason: &Cell<Option<Reason>>,
    reader: &mut R,
    writer: &mut W,
) -> Result<(), Failure>
    ensures { ImportChecked M.Machine M.Office.Office R.remaining W.contents R.failed W.failed
        machine.old machine.new reader.old reader.new writer.old writer.new is_checked rows.now.is_strict rows.now.file now result }
{
    let path = rows.file.as_str();
    let mut office = open_unsigned(machine, path)?;
    match check_import::<M>(&mut office, now, is_checked) {
        Ok(()) => {}
        Err(why) => {
            machine.close(path, office);
            return Err(why);
        }
    }
    if rows.is_strict {
        let imported = import_strict_rows::<M, R, W>(
            alloc,
            &mut office,
            now,
            reason,
            reader,
            writer,
        );
        machine.close(path, office);
        return run_ended(imported);
    }
    let imported = import(alloc, reader, writer, now, &mut office);
    machine.close(path, office);
    ended(imported)
}

fn check_import<M: Machine>(
    office: &mut M::Office,
    now: Moment,
    is_checked: bool,
) -> Result<(), Failure>
    ensures checked { OnErr result (IsTrue is_checked) }
    ensures looks { LooksIn M.Office.Office
        (λ records. IsTrue is_checked → ChecksMoment now records result) office.old office.new }
{
    if !is_checked {
        return Ok(());
    }
    check_moment::<M>(office, now)
}

fn import_strict_rows<M: Machine, R: Source, W: Sink>(
    alloc: Global,
    office: &mut M::Office,
    now: Moment,
    reason: &Cell<Option<Reason>>,
    reader: &mut R,
    writer: &mut W,
) -> Result<Ended, Fault>
    ensures { LeadsIn M.Office.Office
        (λ identity before after.
        StrictEnds (Lines M.Office.signs identity) R.remaining W.contents R.failed W.failed now before after
        reader.old reader.new writer.old writer.new result) office.old office.new }
{
    let imported = import_strictly(alloc, reader, writer, now, office);
    keep_reason::<M>(office, &imported, reason);
    imported
}

/// The job's result from that of its run, which may have ended at a refusal (`Ended`). [`ended`] is for a run that only a fault ends early.
pub(crate) fn run_ended(ran: Result<Ended, Fault>) -> Result<(), Failure>
    ensures { result ≡ exit_of_run ran }
{
    match ran {
        Ok(Ended::Whole) => Ok(()),
        Ok(Ended::Refused(_)) => Err(Failure::Refused),
        Ok(Ended::NoLineEnd) => Err(Failure::NoLineEnd),
        Err(fault) => Err(Failure::Fault(fault)),
    }
}

/// Writes the DER of the CRL with this number (`None`: of the latest one). Errors: opening errors; those of [`Office::crl_bytes`]; `Write`.
pub fn crl<M: Machine, W: Write>(
    alloc: Global,
    machine: &mut M,
    path: &str,
    number: Option<u64>,
    writer: &mut W,
) -> Result<(), Failure>
    ensures { CrlAt M.Machine M.Office.Office W.contents machine.old machine.new writer.old writer.new
        path.now number
        result }
{
    let mut office = open_unsigned(machine, path)?;
    let outcome = office.crl_bytes(alloc, number);
    machine.close(path, office);
    print_result(writer, outcome)
}

pub(crate) fn print_result<W: Write>(
    writer: &mut W,
    outcome: Result<Vec<u8>, Fault>,
) -> Result<(), Failure>
    ensures { PrintsResult W.contents writer.old writer.new (items_of outcome) result }
{
    match outcome {
        Ok(bytes) => print_text(writer, &bytes),
        Err(fault) => Err(Failure::Fault(fault)),
    }
}

/// Sets the longest validity of certificates. A step is a moment and a number of days: the most for each certificate whose notBefore is at or after
/// this moment, and before the next step's. Errors: `BadPolicy` for bad steps (nothing is opened then); opening errors; `Memory`; `Store`; `Write`.
pub fn schedule<M: Machine, W: Write>(
    alloc: Global,
    machine: &mut M,
    path: &str,
    steps: &Steps,
    writer: &mut W,
) -> Result<(), Failure>
    ensures { ScheduleAt M.Machine M.Office.Office W.contents machine.old machine.new writer.old writer.new
        path.now
        steps.now result }
{
    let schedule = schedule_of(steps)?;
    let mut office = open_unsigned(machine, path)?;
    let set = office.set_schedule(alloc, schedule);
    machine.close(path, office);
    print_set_result(writer, b"schedule set\n", set)
}

/// Sets the key identifier of the issuer of the register at a path, for CRLs from the next one on (RFC 5280 5.2.1). `key_id` is 1 to 64 bytes in
/// hexadecimal; any other text is refused before the path is opened (`BadIssuer`). Other errors: opening errors; `Memory`; `Store`; `Write`.
pub fn key_identifier<M: Machine, W: Write>(
    alloc: Global,
    machine: &mut M,
    path: &str,
    key_id: &Argument<'_>,
    writer: &mut W,
) -> Result<(), Failure>
    ensures { KeyIdAt M.Machine M.Office.Office W.contents machine.old machine.new writer.old writer.new
        path.now
        key_id.now result }
{
    let octets = key_identifier_of(alloc, key_id)?;
    let mut office = open_unsigned(machine, path)?;
    let set = office.set_key_identifier(alloc, octets);
    machine.close(path, office);
    print_set_result(writer, b"key-id set\n", set)
}

fn print_set_result<W: Write>(
    writer: &mut W,
    text: &[u8],
    set: Result<(), Fault>,
) -> Result<(), Failure>
    requires { IfErr set IsOfStore }
    ensures { PrintsSetResult text.now W.contents writer.old writer.new set result }
{
    match set {
        Ok(()) => print_text(writer, text),
        Err(fault) => Err(Failure::Fault(fault)),
    }
}

/// Audits the register at a path, and writes the result as a line. No file changes. Errors: `Broken`, after that line, if a row is broken or the
/// schema is not a register's; `OldVersion`, without a line; those of [`Machine::read`] and [`Machine::audit_in`]; `Write`.
pub fn audit<M: Machine, W: Write>(
    alloc: Global,
    machine: &M,
    path: &str,
    writer: &mut W,
) -> Result<(), Failure>
    ensures { AuditAt M.Machine M.Office.Office W.contents machine.now machine.now writer.old writer.new
        path.now result }
{
    let audit_result = audit_at(machine, path)?;
    report_audit_result(alloc, writer, audit_result)
}

fn report_audit_result<W: Write>(
    alloc: Global,
    writer: &mut W,
    audit_result: AuditResult,
) -> Result<(), Failure>
    ensures { ReportsAuditResult W.contents writer.old writer.new audit_result result }
{
    match audit_result {
        AuditResult::Sound(found) => print_sound(alloc, writer, found),
        AuditResult::Broken(broken) => print_broken(alloc, writer, broken),
        AuditResult::OtherSchema => print_broken_text(writer, OTHER_SCHEMA.as_bytes()),
        AuditResult::Older => Err(Failure::OldVersion),
    }
}

fn print_sound<W: Write>(alloc: Global, writer: &mut W, found: Audited) -> Result<(), Failure>
    ensures { PrintsLine (sound_text found) W.contents writer.old writer.new result }
{
    match sound_line(alloc, found) {
        Ok(line) => print_text(writer, &line),
        Err(_) => Err(Failure::Fault(Fault::Memory)),
    }
}

fn print_broken<W: Write>(alloc: Global, writer: &mut W, broken: BrokenRow) -> Result<(), Failure>
    ensures { PrintsBroken (broken_text broken) W.contents writer.old writer.new result }
{
    match broken_line(alloc, broken) {
        Ok(line) => print_broken_text(writer, &line),
        Err(_) => Err(Failure::Fault(Fault::Memory)),
    }
}

fn print_broken_text<W: Write>(writer: &mut W, line: &[u8]) -> Result<(), Failure>
    ensures { PrintsBroken line.now W.contents writer.old writer.new result }
{
    print_text(writer, line)?;
    Err(Failure::Broken)
}
