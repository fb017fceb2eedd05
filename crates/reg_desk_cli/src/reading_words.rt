//! Reads the words of a command line. `desk`: clap's description of it. `matches`: what clap found. `given`: what it found after the command's name.

ghost use Rattle.std.specs.Prelude.{◌≡◌, IfErr, IfOk, map};
ghost use Rattle.clap.specs.Words.{app_of, found_of, rows_of, subcommand_rows_of, kind_of};
ghost use Rattle.reg_desk_cli.specs.Desk.{desk_app};
ghost use Rattle.reg_desk_cli.specs.Jobs.{IsNoInvocation, IsInvocationIn, IsInvocationOf, IsUsageOf, PrintsUsage, has_flag_after, job_found, value_after};

use crate::argument::Argument;
use crate::commands::read_command;
use crate::desk::desk;
use crate::job::{Invocation, Job, Usage};
use crate::option_values::{argument_of, is_set};
use crate::wrong::wrong_text;
use clap::error::ErrorKind;
use clap::{ArgMatches, Command, Error};
use std::alloc::{AllocError, Global};
use std::convert::AsStr;

const TEXT_WANTED: &str = "an argument is not UTF-8 text: each path and name must be UTF-8";

/// Reads the words of a command line, the program's name first. Errors: `Memory`; `Help` and `Version` if the words ask for them; `Bad` if clap finds
/// an error, if a value is malformed or out of range, or if an option excludes or lacks another one: `--unsigned` excludes `--signer`, for example.
pub fn read_words<'a, S: AsStr>(alloc: Global, words: &'a [S]) -> Result<Invocation<'a>, Usage>
    ensures invocation { IfOk result (IsInvocationOf (map S.text words.entry.now)) }
    ensures usage { IfErr result (IsUsageOf (map S.text words.entry.now)) }
{
    match desk(alloc) {
        Ok(mut desk) => read_by(alloc, &mut desk, words),
        Err(_) => Err(Usage::Memory),
    }
}

fn read_by<'a, S: AsStr>(
    alloc: Global,
    desk: &mut Command<'a>,
    words: &'a [S],
) -> Result<Invocation<'a>, Usage>
    requires { app_of desk.old ≡ desk_app }
    ensures invocation { IfOk result (IsInvocationOf (map S.text words.entry.now)) }
    ensures usage { IfErr result (IsUsageOf (map S.text words.entry.now)) }
{
    match desk.try_get_matches_from_mut(words) {
        Ok(matches) => read_invocation(alloc, desk, &matches),
        Err(error) => Err(usage_of(alloc, &error)),
    }
}

fn read_invocation<'a>(
    alloc: Global,
    desk: &mut Command<'_>,
    matches: &ArgMatches<'a>,
) -> Result<Invocation<'a>, Usage>
    ensures invocation { IfOk result
        (IsInvocationIn (rows_of (found_of matches.now)) (subcommand_rows_of matches.now)) }
    ensures usage { IfErr result (IsNoInvocation (subcommand_rows_of matches.now)) }
{
    match read_job(alloc, matches) {
        Ok(Some(job)) => Ok(Invocation {
            job,
            is_explained: is_set(matches, "why") || is_set_after_command(matches, "why"),
            has_log: is_set_after_command(matches, "log"),
            log_file: word_after_command(matches, "log-file"),
        }),
        Ok(None) => Err(bad_value(alloc, desk, matches)),
        Err(_) => Err(Usage::Memory),
    }
}

fn is_set_after_command(matches: &ArgMatches<'_>, id: &str) -> bool
    ensures { result ≡ has_flag_after id.now (subcommand_rows_of matches.now) }
{
    match matches.subcommand() {
        Some((_, given)) => is_set(given, id),
        None => false,
    }
}

fn word_after_command<'a>(matches: &ArgMatches<'a>, id: &str) -> Option<Argument<'a>>
    ensures { result ≡ value_after id.now (subcommand_rows_of matches.now) }
{
    match matches.subcommand() {
        Some((_, given)) => argument_of(given, id),
        None => None,
    }
}

fn read_job<'a>(alloc: Global, matches: &ArgMatches<'a>) -> Result<Option<Job<'a>>, AllocError>
    ensures { IfOk result (λ job. job ≡ job_found (subcommand_rows_of matches.now)) }
{
    match matches.subcommand() {
        Some((name, given)) => read_command(alloc, name, given),
        None => Ok(None),
    }
}

/// The usage error for a word of the command line that is not UTF-8.
pub fn not_utf8_usage(alloc: Global) -> Usage
    ensures { PrintsUsage ErrorKind.InvalidValue result }
{
    match desk(alloc) {
        Ok(mut desk) => text_wanted(alloc, &mut desk),
        Err(_) => Usage::Memory,
    }
}

fn text_wanted(alloc: Global, desk: &mut Command<'_>) -> Usage
    ensures { PrintsUsage ErrorKind.InvalidValue result }
{
    clap_error(alloc, desk, ErrorKind::InvalidValue, TEXT_WANTED)
}

/// The usage error for words that clap accepted but that make no job. It names the wrong value and its option, or the options that do not fit.
fn bad_value(alloc: Global, desk: &mut Command<'_>, matches: &ArgMatches<'_>) -> Usage
    ensures { PrintsUsage ErrorKind.ValueValidation result }
{
    match wrong_text(alloc, matches) {
        Some(text) => clap_error(alloc, desk, ErrorKind::ValueValidation, &text),
        None => Usage::Memory,
    }
}

fn clap_error(alloc: Global, desk: &mut Command<'_>, kind: ErrorKind, text: &str) -> Usage
    ensures { PrintsUsage kind result }
{
    match desk.error(kind, text) {
        Ok(error) => usage_of(alloc, &error),
        Err(_) => Usage::Memory,
    }
}

fn usage_of(alloc: Global, error: &Error) -> Usage
    ensures { PrintsUsage (kind_of error.now) result }
{
    let Ok(text) = format!(in alloc; "{error}") else {
        return Usage::Memory;
    };
    match error.kind() {
        ErrorKind::DisplayHelp => Usage::Help(text),
        ErrorKind::DisplayVersion => Usage::Version(text),
        ErrorKind::OutOfMemory => Usage::Memory,
        _ => Usage::Bad(text),
    }
}
