//! Makes the job of each command from its arguments and options.

ghost use Rattle.std.specs.Prelude.{◌≡◌, codes, IfOk};
ghost use Rattle.reg_desk_cli.specs.Jobs.{endpoint_in, import_moment, one_moment};
ghost use Rattle.clap.specs.Words.{found_of, rows_of};
ghost use Rattle.reg_desk_cli.specs.Jobs.{job_in, serving_job_in, other_job_in, init_of, script_by, script_of, import_of, crl_job, number_in, serve_of, open_of, follow_of, at_by, at_of, replay_of, schedule_of, key_id_of, filter_for, form_in, list_of, copy_of, audit_of};

use crate::argument::Argument;
use crate::job::{
    Endpoint, FollowJob, ImportJob, Job, LineScript, ListJob, NewRegister, OpenJob, OrderTerms,
    RowTask, ScriptOptions, ServeJob, SignerAddress,
};
use crate::option_values::{
    argument_of, confirm_option, filter_option, is_set, lag_option, leader_option, loopback,
    moment_option, number_option, number_or, number_within, order_terms_option, responder,
    script_options_of, signer_option, signer_or_unsigned, steps, text_of,
};
use crate::wrong::{LAST_PORT, MOST_REQUESTS};
use clap::ArgMatches;
use reg_core::Moment;
use reg_core_lists::{Cursor, Filter, Format};
use std::alloc::{AllocError, Global};

/// `init`'s defaults (`Policy::usual`): most days of validity; seconds from thisUpdate to nextUpdate of CRLs and OCSP answers; most rows of a table.
const DEFAULT_DAYS: u64 = 398;

const DEFAULT_CRL_LIFE: u64 = 691_200;

const DEFAULT_OCSP_LIFE: u64 = 345_600;

const DEFAULT_CAP: u64 = 1_000_000;

/// The job of the command with this name, whose arguments and options clap found in `given`. `None` if a value is malformed or out of range, or if an
/// option excludes another or lacks one that it needs.
#[tactic(auto, unfolding(crate::specs::Jobs::job_in))]
pub(crate) fn read_command<'a>(
    alloc: Global,
    name: &str,
    given: &ArgMatches<'a>,
) -> Result<Option<Job<'a>>, AllocError>
    ensures { IfOk result (λ job. job ≡ job_in name.now (rows_of (found_of given.now))) }
{
    if name == "init" {
        Ok(read_init(given))
    } else if name == "script" {
        Ok(read_script(given))
    } else if name == "import" {
        Ok(read_import(given))
    } else if name == "crl" {
        Ok(read_crl(given))
    } else {
        read_socket_job(alloc, name, given)
    }
}

/// The rest of [`read_command`]: commands that serve HTTP (`serve`, `open`) or send lines to a desk that does (`at`, `replay`), then all others.
#[tactic(auto, unfolding(crate::specs::Jobs::serving_job_in))]
fn read_socket_job<'a>(
    alloc: Global,
    name: &str,
    given: &ArgMatches<'a>,
) -> Result<Option<Job<'a>>, AllocError>
    ensures { IfOk result (λ job. job ≡ serving_job_in name.now (rows_of (found_of given.now))) }
{
    if name == "serve" {
        Ok(read_serve(given))
    } else if name == "open" {
        Ok(read_open(given))
    } else if name == "follow" {
        Ok(read_follow(given))
    } else if name == "at" {
        Ok(read_at(given))
    } else if name == "replay" {
        Ok(read_replay(given))
    } else {
        read_other_job(alloc, name, given)
    }
}

#[tactic(auto, unfolding(crate::specs::Jobs::other_job_in))]
fn read_other_job<'a>(
    alloc: Global,
    name: &str,
    given: &ArgMatches<'a>,
) -> Result<Option<Job<'a>>, AllocError>
    ensures { IfOk result (λ job. job ≡ other_job_in name.now (rows_of (found_of given.now))) }
{
    if name == "schedule" {
        read_schedule(alloc, given)
    } else if name == "key-id" {
        Ok(read_key_id(given))
    } else if name == "list" {
        Ok(read_list(given))
    } else if name == "copy" {
        Ok(read_copy(given))
    } else if name == "audit" {
        Ok(read_audit(given))
    } else {
        Ok(None)
    }
}

#[tactic(auto, unfolding(crate::specs::Jobs::init_of))]
fn read_init<'a>(given: &ArgMatches<'a>) -> Option<Job<'a>>
    ensures { result ≡ init_of (rows_of (found_of given.now)) }
{
    Some(Job::Init(NewRegister {
        file: argument_of(given, "file")?,
        name: argument_of(given, "name")?,
        key: argument_of(given, "key")?,
        key_id: argument_of(given, "key-id"),
        days: number_or(given, "days", DEFAULT_DAYS)?,
        crl_life: number_or(given, "crl-life", DEFAULT_CRL_LIFE)?,
        ocsp_life: number_or(given, "ocsp-life", DEFAULT_OCSP_LIFE)?,
        cap: number_or(given, "cap", DEFAULT_CAP)?,
    }))
}

#[tactic(auto, unfolding(crate::specs::Jobs::script_of))]
fn read_script<'a>(given: &ArgMatches<'a>) -> Option<Job<'a>>
    ensures { result ≡ script_of (rows_of (found_of given.now)) }
{
    let signer = signer_option(given)?;
    script_job(argument_of(given, "file"), signer, script_options_of(given))
}

/// The job of `script`: `Job::Lines` with `--clock` or `--strict`, which need FILE; `Job::Script` without them.
fn script_job<'a>(
    file: Option<Argument<'a>>,
    signer: Option<SignerAddress<'a>>,
    options: ScriptOptions,
) -> Option<Job<'a>>
    ensures { result ≡ script_by file.entry signer.entry options }
{
    let needs_file = options.is_clocked || options.is_strict;
    match file {
        Some(file) if needs_file => Some(Job::Lines(LineScript {
            file,
            signer,
            options,
        })),
        None if needs_file => None,
        file => Some(Job::Script { file, signer }),
    }
}

#[tactic(auto, unfolding(crate::specs::Jobs::import_of))]
fn read_import<'a>(given: &ArgMatches<'a>) -> Option<Job<'a>>
    ensures { result ≡ import_of (rows_of (found_of given.now)) }
{
    Some(Job::Import(ImportJob {
        file: argument_of(given, "file")?,
        moment: import_moment(given)?,
        accepts_clock: is_set(given, "accept-clock"),
        is_strict: is_set(given, "strict"),
    }))
}

/// The moment of `--now`. `Some(None)`: that of the clock (`--clock`). `None`: neither or both are given, or the value of `--now` is no moment.
#[tactic(auto, unfolding(crate::specs::Jobs::import_moment))]
fn import_moment(given: &ArgMatches<'_>) -> Option<Option<Moment>>
    ensures { result ≡ import_moment (rows_of (found_of given.now)) }
{
    one_moment(moment_option(given, "now")?, is_set(given, "clock"))
}

fn one_moment(now: Option<Moment>, is_clocked: bool) -> Option<Option<Moment>>
    ensures { result ≡ one_moment now is_clocked }
{
    if now.is_some() == is_clocked {
        None
    } else {
        Some(now)
    }
}

#[tactic(auto, unfolding(crate::specs::Jobs::crl_job))]
fn read_crl<'a>(given: &ArgMatches<'a>) -> Option<Job<'a>>
    ensures { result ≡ crl_job (rows_of (found_of given.now)) }
{
    Some(Job::Crl {
        file: argument_of(given, "file")?,
        number: number_option(given, "number")?,
    })
}

fn port_of(given: &ArgMatches<'_>) -> Option<u16>
    ensures { result ≡ number_in 1 65535 (codes "port") (rows_of (found_of given.now)) }
{
    Some(number_within(given, "port", 1, LAST_PORT)? as u16)
}

#[tactic(auto, unfolding(crate::specs::Jobs::endpoint_in))]
fn endpoint_of(given: &ArgMatches<'_>) -> Option<Endpoint>
    ensures { result ≡ endpoint_in (rows_of (found_of given.now)) }
{
    Some(Endpoint {
        address: loopback(given)?,
        port: port_of(given)?,
    })
}

#[tactic(auto, unfolding(crate::specs::Jobs::serve_of))]
fn read_serve<'a>(given: &ArgMatches<'a>) -> Option<Job<'a>>
    ensures { result ≡ serve_of (rows_of (found_of given.now)) }
{
    Some(Job::Serve(ServeJob {
        file: argument_of(given, "file")?,
        endpoint: endpoint_of(given)?,
        requests: number_within(given, "requests", 1, MOST_REQUESTS)? as u32,
        signer: signer_option(given)?,
        responder: responder(given)?,
        published: argument_of(given, "published"),
    }))
}

#[tactic(auto, unfolding(crate::specs::Jobs::open_of))]
fn read_open<'a>(given: &ArgMatches<'a>) -> Option<Job<'a>>
    ensures { result ≡ open_of (rows_of (found_of given.now)) }
{
    let file = argument_of(given, "file")?;
    let endpoint = endpoint_of(given)?;
    let control = argument_of(given, "control")?;
    let confirm_by = confirm_option(given)?;
    let ocsp_responder = responder(given)?;
    let signer = signer_or_unsigned(given, &ocsp_responder)?;
    Some(Job::Open(OpenJob {
        file,
        endpoint,
        control,
        signer,
        responder: ocsp_responder,
        published: argument_of(given, "published"),
        confirm_by,
    }))
}

#[tactic(auto, unfolding(crate::specs::Jobs::follow_of))]
fn read_follow<'a>(given: &ArgMatches<'a>) -> Option<Job<'a>>
    ensures { result ≡ follow_of (rows_of (found_of given.now)) }
{
    let file = argument_of(given, "file")?;
    let leader = leader_option(given)?;
    let endpoint = endpoint_of(given)?;
    let lag = lag_option(given)?;
    let number = number_or(given, "follower", 0)?;
    let ocsp_responder = responder(given)?;
    let signer = signer_or_unsigned(given, &ocsp_responder)?;
    Some(Job::Follow(FollowJob {
        file,
        leader,
        endpoint,
        control: argument_of(given, "control"),
        signer,
        responder: ocsp_responder,
        lag,
        number,
    }))
}

#[tactic(auto, unfolding(crate::specs::Jobs::at_of))]
fn read_at<'a>(given: &ArgMatches<'a>) -> Option<Job<'a>>
    ensures { result ≡ at_of (rows_of (found_of given.now)) }
{
    let control_path = argument_of(given, "control")?;
    let orders = order_terms_option(given)?;
    at_job(
        control_path,
        argument_of(given, "import"),
        argument_of(given, "revoke"),
        orders,
    )
}

/// The job of `at`, from the values of `--import`, `--revoke` and `--orders`; `None` if these don't go together. `rows` is `None` for standard input.
fn at_job<'a>(
    control_path: Argument<'a>,
    imported: Option<Argument<'a>>,
    revoked: Option<Argument<'a>>,
    orders: Option<OrderTerms>,
) -> Option<Job<'a>>
    ensures { result ≡ at_by control_path.entry imported.entry revoked.entry orders }
{
    let (rows, task) = match (imported, revoked, orders) {
        (rows, None, None) => return Some(Job::At { control_path, rows }),
        (Some(rows), None, Some(terms)) => (rows, RowTask::Register(terms)),
        (None, Some(rows), None) => (rows, RowTask::Revoke),
        _ => return None,
    };
    Some(Job::EachRow {
        control_path,
        rows,
        task,
    })
}

#[tactic(auto, unfolding(crate::specs::Jobs::replay_of))]
fn read_replay<'a>(given: &ArgMatches<'a>) -> Option<Job<'a>>
    ensures { result ≡ replay_of (rows_of (found_of given.now)) }
{
    Some(Job::Replay {
        control_path: argument_of(given, "control")?,
        log: argument_of(given, "log")?,
    })
}

#[tactic(auto, unfolding(crate::specs::Jobs::schedule_of))]
fn read_schedule<'a>(alloc: Global, given: &ArgMatches<'a>) -> Result<Option<Job<'a>>, AllocError>
    ensures { IfOk result (λ job. job ≡ schedule_of (rows_of (found_of given.now))) }
{
    let Some(file) = argument_of(given, "file") else {
        return Ok(None);
    };
    match steps(alloc, given, "steps")? {
        Some(steps) => Ok(Some(Job::Schedule { file, steps })),
        None => Ok(None),
    }
}

#[tactic(auto, unfolding(crate::specs::Jobs::key_id_of))]
fn read_key_id<'a>(given: &ArgMatches<'a>) -> Option<Job<'a>>
    ensures { result ≡ key_id_of (rows_of (found_of given.now)) }
{
    Some(Job::KeyId {
        file: argument_of(given, "file")?,
        key_id: argument_of(given, "key-id")?,
    })
}

#[tactic(auto, unfolding(crate::specs::Jobs::list_of))]
fn read_list<'a>(given: &ArgMatches<'a>) -> Option<Job<'a>>
    ensures { result ≡ list_of (rows_of (found_of given.now)) }
{
    let file = argument_of(given, "file")?;
    let word = text_of(given, "list")?;
    let before = moment_option(given, "before")?;
    // The list with this name, from its first row on. The list `ending` needs `--before`, and no other list takes it.
    let from = Cursor::named(word.as_bytes(), before)?;
    let moment = moment_option(given, "now")?;
    let filter = filter_for(given, &from)?;
    Some(Job::Listing(ListJob {
        file,
        from,
        moment,
        filter,
        form: form_of(given),
    }))
}

/// The filter of the list with this cursor; `None` if an option's value can't be read, or if the list's rows lack a field that an option selects by.
#[tactic(auto, unfolding(crate::specs::Jobs::filter_for))]
fn filter_for(given: &ArgMatches<'_>, list: &Cursor) -> Option<Filter>
    ensures { result ≡ filter_for list.now (rows_of (found_of given.now)) }
{
    let filter = filter_option(given)?;
    if filter.fits(*list) {
        Some(filter)
    } else {
        None
    }
}

fn form_of(given: &ArgMatches<'_>) -> Format
    ensures { result ≡ form_in (rows_of (found_of given.now)) }
{
    if is_set(given, "json") {
        Format::Json
    } else {
        Format::Csv
    }
}

#[tactic(auto, unfolding(crate::specs::Jobs::copy_of))]
fn read_copy<'a>(given: &ArgMatches<'a>) -> Option<Job<'a>>
    ensures { result ≡ copy_of (rows_of (found_of given.now)) }
{
    Some(Job::Copy {
        file: argument_of(given, "file")?,
        path: argument_of(given, "path")?,
    })
}

#[tactic(auto, unfolding(crate::specs::Jobs::audit_of))]
fn read_audit<'a>(given: &ArgMatches<'a>) -> Option<Job<'a>>
    ensures { result ≡ audit_of (rows_of (found_of given.now)) }
{
    Some(Job::Audit {
        file: argument_of(given, "file")?,
    })
}
