//! Reads the values of a command's arguments and options. `matches` is what clap found, and `id` names an argument, or an option by its long name.
//! An `Option<Option<..>>` is `Some(None)` if the option is not given, and `None` if its value is invalid.

ghost use Rattle.std.specs.Prelude.{◌≡◌, ◌≤◌, ◌==◌, IfOk, IfSome, List, ℕ, map, option_and_then, option_map, position};
ghost use Rattle.reg_core.specs.Calendar.{moment_of};
ghost use Rattle.reg_core.specs.Number.{number_of};
ghost use Rattle.clap.specs.Words.{all_of, first_of, found_of, rows_of};
ghost use Rattle.reg_desk_cli.specs.Jobs.{confirm_in, responder_in, responder_by, given, value_or_default, chosen, filter_in, has_own_key, signer_by_options, signer_or_unsigned, signer_in, has_flag, label_given, lag_in, leader_in, leader_of, loopback_in, loopback_named, moment_given, number_in, order_terms_given, prefix_given, script_options_in};
ghost use Rattle.reg_desk_cli.specs.WordValues.{order_terms_of, step_of, step_from, steps_of, within};

use crate::argument::{Argument, Steps};
use crate::job::{
    LeaderAddress, Loopback, OrderTerms, ResponderChoice, ScriptOptions, SignerAddress,
};
use crate::wrong::{LAST_PORT, LONGEST_LAG, MOST_CONFIRMING};
use clap::ArgMatches;
use reg_core::{Label, Moment, read_number};
use reg_core_lists::{Filter, read_prefix};
use reg_crl_signer::Algorithm;
use std::alloc::{AllocError, Global};

/// For how many seconds a follower answers by default after the leader was last reached.
const DEFAULT_LAG: u64 = 60;

/// The value that [`text_of`] gives, as an [`Argument`]: a word as it was typed, such as a path.
pub(crate) fn argument_of<'a>(matches: &ArgMatches<'a>, id: &str) -> Option<Argument<'a>>
    ensures { result ≡ first_of id.now (rows_of (found_of matches.now)) }
{
    Some(Argument::of(text_of(matches, id)?))
}

/// The value of an argument or option, the first if it has several; `None` if it is not given.
pub(crate) fn text_of<'a>(matches: &ArgMatches<'a>, id: &str) -> Option<&'a str>
    ensures { option_map (λ text. text.now) result ≡ first_of id.now (rows_of (found_of matches.now)) }
{
    matches.get_str(id)
}

fn texts_of<'m, 'a>(matches: &'m ArgMatches<'a>, id: &str) -> Option<&'m [&'a str]>
    ensures { option_map (λ texts. map (λ text. text.now) texts.now) result
        ≡ all_of id.now (rows_of (found_of matches.now)) }
{
    matches.get_strs(id)
}

/// The number of an option, or `otherwise` if the option is not given; `None` if its value is no number.
pub(crate) fn number_or(matches: &ArgMatches<'_>, id: &str, otherwise: u64) -> Option<u64>
    ensures { result ≡ value_or_default otherwise id.now (rows_of (found_of matches.now)) }
{
    match text_of(matches, id) {
        Some(text) => read_number(text.as_bytes()),
        None => Some(otherwise),
    }
}

pub(crate) fn number_option(matches: &ArgMatches<'_>, id: &str) -> Option<Option<u64>>
    ensures { result ≡ given id.now (rows_of (found_of matches.now)) }
{
    match text_of(matches, id) {
        Some(text) => Some(Some(read_number(text.as_bytes())?)),
        None => Some(None),
    }
}

/// The number of an option; `None` if it is not given, no number, or out of bounds.
pub(crate) fn number_within(
    matches: &ArgMatches<'_>,
    id: &str,
    least: u64,
    most: u64,
) -> Option<u64>
    ensures exact { result ≡ number_in least most id.now (rows_of (found_of matches.now)) }
    ensures at_most { IfSome result (λ number. number ≤ most) }
{
    bounded(read_number(text_of(matches, id)?.as_bytes())?, least, most)
}

fn bounded(number: u64, least: u64, most: u64) -> Option<u64>
    ensures exact { result ≡ within least most number }
    ensures at_most { IfSome result (λ number. number ≤ most) }
{
    if least <= number && number <= most {
        Some(number)
    } else {
        None
    }
}

/// The moment of an option; `None` if it is not given, or if its value is no moment.
pub(crate) fn moment(matches: &ArgMatches<'_>, id: &str) -> Option<Moment>
    ensures { result ≡ option_and_then moment_of (first_of id.now (rows_of (found_of matches.now))) }
{
    Moment::read(text_of(matches, id)?.as_bytes())
}

pub(crate) fn moment_option(matches: &ArgMatches<'_>, id: &str) -> Option<Option<Moment>>
    ensures { result ≡ moment_given id.now (rows_of (found_of matches.now)) }
{
    match text_of(matches, id) {
        Some(text) => Some(Some(Moment::read(text.as_bytes())?)),
        None => Some(None),
    }
}

pub(crate) fn loopback(matches: &ArgMatches<'_>) -> Option<Loopback>
    ensures { result ≡ loopback_in (rows_of (found_of matches.now)) }
{
    match text_of(matches, "listen") {
        Some(text) => read_loopback(text),
        None => Some(Loopback::V4),
    }
}

/// The address of `--from`: `127.0.0.1:PORT`, or the path of a Unix socket; `None` for a port that is not 1 to 65,535.
pub(crate) fn leader_option<'a>(matches: &ArgMatches<'a>) -> Option<LeaderAddress<'a>>
    ensures { result ≡ leader_in (rows_of (found_of matches.now)) }
{
    leader_of(text_of(matches, "from")?)
}

fn leader_of<'a>(text: &'a str) -> Option<LeaderAddress<'a>>
    ensures { result ≡ leader_of text.entry.now }
{
    match text.as_bytes().strip_prefix(b"127.0.0.1:") {
        Some(port) => Some(LeaderAddress::Port(read_port(port)?)),
        None => Some(LeaderAddress::Socket(Argument::of(text))),
    }
}

fn read_port(text: &[u8]) -> Option<u16>
    ensures { result ≡ option_and_then (within 1 65535) (number_of text.now) }
{
    Some(bounded(read_number(text)?, 1, LAST_PORT)? as u16)
}

/// The number of `--confirm-by`, or 0 if it is not given; `None` for a number that is not 1 to 8.
pub(crate) fn confirm_option(matches: &ArgMatches<'_>) -> Option<u64>
    ensures { result ≡ confirm_in (rows_of (found_of matches.now)) }
{
    match text_of(matches, "confirm-by") {
        Some(_) => number_within(matches, "confirm-by", 1, MOST_CONFIRMING),
        None => Some(0),
    }
}

/// The seconds of `--lag`, or 60 if it is not given; `None` for a number that is not 1 to 86,400.
pub(crate) fn lag_option(matches: &ArgMatches<'_>) -> Option<u64>
    ensures { result ≡ lag_in (rows_of (found_of matches.now)) }
{
    bounded(number_or(matches, "lag", DEFAULT_LAG)?, 1, LONGEST_LAG)
}

fn read_loopback(text: &str) -> Option<Loopback>
    ensures { result ≡ loopback_named text.now }
{
    if text == "127.0.0.1" {
        Some(Loopback::V4)
    } else if text == "[::1]" {
        Some(Loopback::V6)
    } else {
        None
    }
}

#[tactic(auto, unfolding(crate::specs::Jobs::filter_in))]
pub(crate) fn filter_option(matches: &ArgMatches<'_>) -> Option<Filter>
    ensures { result ≡ filter_in (rows_of (found_of matches.now)) }
{
    Some(Filter {
        subscriber: label_option(matches, "subscriber")?,
        serial: prefix_option(matches, "serial")?,
        from: moment_option(matches, "from")?,
        to: moment_option(matches, "to")?,
    })
}

/// The text of an option, which must have 1 to 64 bytes; for [`prefix_option`], 1 to 40 hexadecimal digits.
pub(crate) fn label_option(matches: &ArgMatches<'_>, id: &str) -> Option<Option<Label>>
    ensures { result ≡ label_given id.now (rows_of (found_of matches.now)) }
{
    match text_of(matches, id) {
        Some(text) => Some(Some(Label::of(text.as_bytes())?)),
        None => Some(None),
    }
}

pub(crate) fn prefix_option(matches: &ArgMatches<'_>, id: &str) -> Option<Option<Label>>
    ensures { result ≡ prefix_given id.now (rows_of (found_of matches.now)) }
{
    match text_of(matches, id) {
        Some(text) => Some(Some(read_prefix(text.as_bytes())?)),
        None => Some(None),
    }
}

/// The signer; `Some(None)` if neither `--signer` nor `--algorithm` is given, `None` if only one is, or if no algorithm has the name.
pub(crate) fn signer_option<'a>(matches: &ArgMatches<'a>) -> Option<Option<SignerAddress<'a>>>
    ensures { result ≡ signer_in (rows_of (found_of matches.now)) }
{
    signer_by(matches, "signer", "algorithm")
}

/// The responder to OCSP requests: the issuer, with its certificate for the answers if `--embed` gives one; or a delegate with its own key, if
/// `--responder`, `--responder-signer` and `--responder-algorithm` are given. `None` if only some of these are, if no algorithm has the name, or if a
/// delegate is given with `--embed`.
#[tactic(auto, unfolding(crate::specs::Jobs::responder_in))]
pub(crate) fn responder<'a>(matches: &ArgMatches<'a>) -> Option<ResponderChoice<'a>>
    ensures { result ≡ responder_in (rows_of (found_of matches.now)) }
{
    let signer = signer_by(matches, "responder-signer", "responder-algorithm")?;
    let embedded = argument_of(matches, "embed");
    responder_of(argument_of(matches, "responder"), signer, embedded)
}

fn responder_of<'a>(
    responder: Option<Argument<'a>>,
    signer: Option<SignerAddress<'a>>,
    embedded: Option<Argument<'a>>,
) -> Option<ResponderChoice<'a>>
    ensures { result ≡ responder_by responder.entry signer.entry embedded.entry }
{
    match (responder, signer) {
        (Some(certificate), Some(signer)) => {
            if embedded.is_some() {
                return None;
            }
            Some(ResponderChoice::Delegate {
                certificate,
                address: signer,
            })
        }
        (None, None) => Some(ResponderChoice::Issuer {
            certificate: embedded,
        }),
        (Some(_), None) => None,
        (None, Some(_)) => None,
    }
}

/// As [`signer_option`], from the options with these ids: `socket` for the signer's socket, `algorithm` for its algorithm.
fn signer_by<'a>(
    matches: &ArgMatches<'a>,
    socket: &str,
    algorithm: &str,
) -> Option<Option<SignerAddress<'a>>>
    ensures { result ≡ signer_by_options socket.now algorithm.now (rows_of (found_of matches.now)) }
{
    match (argument_of(matches, socket), text_of(matches, algorithm)) {
        (Some(socket), Some(name)) => {
            let algorithm = Algorithm::read(name)?;
            Some(Some(SignerAddress { socket, algorithm }))
        }
        (None, None) => Some(None),
        _ => None,
    }
}

/// The signer of CRLs for `open`; `Some(None)` with `--unsigned`, or with a delegate and no signer (then new CRLs fail). `None` where
/// [`signer_option`] gives `None`, if `--unsigned` is given with a signer or a delegate, or if there is no signer, no delegate and no `--unsigned`.
pub(crate) fn signer_or_unsigned<'a>(
    matches: &ArgMatches<'a>,
    responder: &ResponderChoice<'_>,
) -> Option<Option<SignerAddress<'a>>>
    ensures { result ≡ signer_or_unsigned responder.now (rows_of (found_of matches.now)) }
{
    let is_unsigned = is_set(matches, "unsigned");
    choose(signer_option(matches)?, is_unsigned, is_delegate(responder))
}

fn is_delegate(responder: &ResponderChoice<'_>) -> bool
    ensures { result ≡ has_own_key responder.now }
{
    match responder {
        ResponderChoice::Issuer { .. } => false,
        ResponderChoice::Delegate { .. } => true,
    }
}

fn choose<'a>(
    signer: Option<SignerAddress<'a>>,
    is_unsigned: bool,
    is_delegated: bool,
) -> Option<Option<SignerAddress<'a>>>
    ensures { result ≡ chosen signer.entry is_unsigned is_delegated }
{
    // Either `--unsigned` is given, or a signer: that of CRLs, that of a delegate, or both.
    let has_other = signer.is_some() || is_delegated;
    if has_other == is_unsigned {
        None
    } else {
        Some(signer)
    }
}

/// `--clock`: the lines run at the clock's moments. `--accept-clock`: even if the clock is over 30 days past the last accepted command.
pub(crate) fn script_options_of(matches: &ArgMatches<'_>) -> ScriptOptions
    ensures { result ≡ script_options_in (rows_of (found_of matches.now)) }
{
    ScriptOptions {
        is_clocked: is_set(matches, "clock"),
        accepts_clock: is_set(matches, "accept-clock"),
        is_strict: is_set(matches, "strict"),
    }
}

/// Whether a flag (an option that takes no value) is given. If it is, clap's value for it is `true`.
pub(crate) fn is_set(matches: &ArgMatches<'_>, id: &str) -> bool
    ensures { result ≡ has_flag id.now (rows_of (found_of matches.now)) }
{
    match text_of(matches, id) {
        Some(text) => text == "true",
        None => false,
    }
}

/// `--orders SUBSCRIBER DAYS` of `at --import`: each imported certificate gets an order of this subscriber, for at most DAYS days.
pub(crate) fn order_terms_option(matches: &ArgMatches<'_>) -> Option<Option<OrderTerms>>
    ensures { result ≡ order_terms_given (rows_of (found_of matches.now)) }
{
    match texts_of(matches, "orders") {
        Some(texts) => Some(Some(read_order_terms(texts)?)),
        None => Some(None),
    }
}

fn read_order_terms(texts: &[&str]) -> Option<OrderTerms>
    ensures { result ≡ order_terms_of (map (λ text. text.now) texts.now) }
{
    let [subscriber, days] = texts else {
        return None;
    };
    Some(OrderTerms {
        subscriber: read_number(subscriber.as_bytes())?,
        days: read_number(days.as_bytes())?,
    })
}

/// The steps of a schedule; `None` if none is given, or if one is not MOMENT=DAYS.
pub(crate) fn steps(
    alloc: Global,
    matches: &ArgMatches<'_>,
    id: &str,
) -> Result<Option<Steps>, AllocError>
    ensures { IfOk result (λ steps.
        steps ≡ option_and_then steps_of (all_of id.now (rows_of (found_of matches.now)))) }
{
    match texts_of(matches, id) {
        Some(texts) => read_steps(alloc, texts),
        None => Ok(None),
    }
}

fn read_steps(alloc: Global, texts: &[&str]) -> Result<Option<Steps>, AllocError>
    ensures { IfOk result (λ steps. steps ≡ steps_of (map (λ text. text.now) texts.now)) }
{
    let mut steps = Vec::new(alloc);
    for text in texts {
        match read_step(text.as_bytes()) {
            Some(step) => steps.push(step)?,
            None => return Ok(None),
        }
    }
    Ok(Some(Steps::of(steps)))
}

/// Reads `MOMENT=DAYS`, a step of a schedule; `None` for any other text.
pub fn read_step(text: &[u8]) -> Option<(Moment, u64)>
    ensures { result ≡ step_of text.now }
{
    let equals = first_equals(text)?;
    step_by(&text[..equals], &text[equals + 1..])
}

fn first_equals(text: &[u8]) -> Option<usize>
    ensures { result ≡ position (λ byte. byte == 61) text.now }
{
    text.iter().position(|byte| *byte == b'=')
}

fn step_by(from: &[u8], days: &[u8]) -> Option<(Moment, u64)>
    ensures { result ≡ step_from from.now days.now }
{
    let days = read_number(days)?;
    Some((Moment::read(from)?, days))
}
