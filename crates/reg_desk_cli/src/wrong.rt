//! Messages about a command line that clap accepts and `desk` does not: for a malformed or out-of-range value, and for options that exclude or lack
//! each other. clap's id of an option is its long name without `--`.

use crate::option_values::{
    label_option, leader_option, loopback, moment, number_within, prefix_option, read_step,
    responder, signer_option, text_of,
};
use clap::ArgMatches;
use reg_core::read_number;
use std::alloc::Global;

pub(crate) const LAST_PORT: u64 = 65_535;

pub(crate) const MOST_REQUESTS: u64 = 1_000_000;

/// The most followers of `--confirm-by`.
pub(crate) const MOST_CONFIRMING: u64 = 8;

/// A day.
pub(crate) const LONGEST_LAG: u64 = 86_400;

/// The greatest number that [`read_number`] reads: eighteen nines.
const MOST: u64 = 999_999_999_999_999_999;

/// The options whose value is a number: the id and the name of each, and the least and greatest number. `policy_of` checks a policy's bounds later.
const NUMBERS: [(&str, &str, u64, u64); 10] = [
    ("days", "--days", 0, MOST),
    ("crl-life", "--crl-life", 0, MOST),
    ("ocsp-life", "--ocsp-life", 0, MOST),
    ("cap", "--cap", 0, MOST),
    ("number", "--number", 0, MOST),
    ("port", "--port", 1, LAST_PORT),
    ("requests", "--requests", 1, MOST_REQUESTS),
    ("lag", "--lag", 1, LONGEST_LAG),
    ("follower", "--follower", 0, MOST),
    ("confirm-by", "--confirm-by", 1, MOST_CONFIRMING),
];

const MOMENTS: [(&str, &str); 4] = [
    ("before", "--before"),
    ("now", "--now"),
    ("from", "--from"),
    ("to", "--to"),
];

const RESPONDER_OPTIONS: [(&str, &str); 3] = [
    ("responder-algorithm", "--responder-algorithm"),
    ("responder-signer", "--responder-signer"),
    ("responder", "--responder"),
];

const NUMBER_WANTED: &str = "a number is 1 to 18 digits and within the range that --help names";

const MOMENT_WANTED: &str = "a moment is written as 2026-01-01T00:00:00Z";

const IMPORT_WANTED: &str = "import needs --now MOMENT or --clock, and not both";

const LOOPBACK_WANTED: &str =
    "the desk listens only on the loopback interface, at 127.0.0.1 or [::1]; a web server in front of it serves other addresses";

const LEADER_WANTED: &str =
    "an address is 127.0.0.1:PORT with a port of 1 to 65535, or the path of a Unix socket";

const STEP_WANTED: &str = "a step is written as 2026-01-01T00:00:00Z=200";

const SIGNER_WANTED: &str =
    "give both --signer and --algorithm, or neither; an algorithm is ecdsa-sha256, ecdsa-sha384, rsa-sha256 or ed25519";

const RESPONDER_WANTED: &str =
    "give --responder, --responder-signer and --responder-algorithm together, and without --embed; an algorithm is ecdsa-sha256, ecdsa-sha384, rsa-sha256 or ed25519";

const LIST_WANTED: &str =
    "a list is revoked, certificates, ending, open-requests, overdue, requests, subscribers, orders or crls; ending needs --before, and no other takes it; crls takes neither --subscriber nor --serial, orders takes no --from or --to, and subscribers takes only --subscriber";

const SUBSCRIBER_WANTED: &str = "a subscriber's name is 1 to 64 bytes";

const SERIAL_WANTED: &str = "a serial number's prefix is 1 to 40 hexadecimal digits";

const FILE_WANTED: &str = "--clock and --strict need a FILE";

const AT_WANTED: &str = "at takes --import or --revoke, and not both; --orders needs --import";

const OPEN_WANTED: &str =
    "open needs --signer SOCKET with --algorithm NAME, or --unsigned for a placeholder digest instead of signatures, and not both; with --responder, --signer may be left out, and --unsigned is refused";

const FOLLOW_WANTED: &str =
    "follow needs --signer SOCKET with --algorithm NAME, or --unsigned for a placeholder digest instead of signatures, and not both; with --responder, --signer may be left out, and --unsigned is refused";

/// A wrong value, its option, and the rule for such values (`wanted`).
#[derive(Clone, Copy)]
struct Wrong<'a> {
    option: &'static str,
    value: &'a str,
    wanted: &'static str,
}

impl<'a> Wrong<'a> {
    fn of(option: &'static str, value: &'a str, wanted: &'static str) -> Wrong<'a> {
        Wrong {
            option,
            value,
            wanted,
        }
    }
}

/// The message for the first wrong value, or else for options that exclude or lack each other; `None` if out of memory.
pub(crate) fn wrong_text(alloc: Global, matches: &ArgMatches<'_>) -> Option<String> {
    let Some(wrong) = first_wrong(matches) else {
        return String::from_str(alloc, combination_wanted(matches)).ok();
    };
    let (option, value, wanted) = (wrong.option, wrong.value, wrong.wanted);
    format!(in alloc; "invalid value '{value}' for '{option}': {wanted}").ok()
}

/// The rule about the options of the given command that exclude or lack each other. The last case is `script`.
fn combination_wanted(matches: &ArgMatches<'_>) -> &'static str {
    match matches.subcommand() {
        Some((name, _)) if name == "open" => OPEN_WANTED,
        Some((name, _)) if name == "follow" => FOLLOW_WANTED,
        Some((name, _)) if name == "import" => IMPORT_WANTED,
        Some((name, _)) if name == "list" => LIST_WANTED,
        Some((name, _)) if name == "at" => AT_WANTED,
        _ => FILE_WANTED,
    }
}

/// The first wrong value of the given command, in the order of these checks; `None` if they find none. The functions of `option_values.rt` that the
/// checks call return `None` for a wrong value, and most of them `Some` if the option is not given.
fn first_wrong<'a>(matches: &ArgMatches<'a>) -> Option<Wrong<'a>> {
    let (name, given) = matches.subcommand()?;
    if let Some(wrong) = wrong_number(given) {
        return Some(wrong);
    }
    if let Some(wrong) = wrong_from(name, given) {
        return Some(wrong);
    }
    if let Some(wrong) = wrong_address(given) {
        return Some(wrong);
    }
    if let Some(wrong) = wrong_step(given) {
        return Some(wrong);
    }
    if let Some(wrong) = wrong_orders(given) {
        return Some(wrong);
    }
    if let Some(wrong) = wrong_filter(given) {
        return Some(wrong);
    }
    if let Some(wrong) = wrong_signer(given) {
        return Some(wrong);
    }
    wrong_responder(given)
}

fn wrong_number<'a>(given: &ArgMatches<'a>) -> Option<Wrong<'a>> {
    for (id, option, least, most) in NUMBERS {
        if let Some(value) = text_of(given, id) {
            if number_within(given, id, least, most).is_none() {
                return Some(Wrong::of(option, value, NUMBER_WANTED));
            }
        }
    }
    None
}

/// A wrong leader of `follow`, whose `--from` is an address; a wrong moment of another command.
fn wrong_from<'a>(name: &str, given: &ArgMatches<'a>) -> Option<Wrong<'a>> {
    if name == "follow" {
        wrong_leader(given)
    } else {
        wrong_moment(given)
    }
}

fn wrong_leader<'a>(given: &ArgMatches<'a>) -> Option<Wrong<'a>> {
    if leader_option(given).is_some() {
        return None;
    }
    let value = text_of(given, "from")?;
    Some(Wrong::of("--from", value, LEADER_WANTED))
}

fn wrong_moment<'a>(given: &ArgMatches<'a>) -> Option<Wrong<'a>> {
    for (id, option) in MOMENTS {
        if let Some(value) = text_of(given, id) {
            if moment(given, id).is_none() {
                return Some(Wrong::of(option, value, MOMENT_WANTED));
            }
        }
    }
    None
}

fn wrong_address<'a>(given: &ArgMatches<'a>) -> Option<Wrong<'a>> {
    if loopback(given).is_some() {
        return None;
    }
    let value = text_of(given, "listen")?;
    Some(Wrong::of("--listen", value, LOOPBACK_WANTED))
}

fn wrong_step<'a>(given: &ArgMatches<'a>) -> Option<Wrong<'a>> {
    for value in given.get_strs("steps")? {
        if read_step(value.as_bytes()).is_none() {
            return Some(Wrong::of("MOMENT=DAYS", value, STEP_WANTED));
        }
    }
    None
}

fn wrong_orders<'a>(given: &ArgMatches<'a>) -> Option<Wrong<'a>> {
    for value in given.get_strs("orders")? {
        if read_number(value.as_bytes()).is_none() {
            return Some(Wrong::of("--orders", value, NUMBER_WANTED));
        }
    }
    None
}

fn wrong_filter<'a>(given: &ArgMatches<'a>) -> Option<Wrong<'a>> {
    if label_option(given, "subscriber").is_none() {
        let value = text_of(given, "subscriber")?;
        return Some(Wrong::of("--subscriber", value, SUBSCRIBER_WANTED));
    }
    if prefix_option(given, "serial").is_none() {
        let value = text_of(given, "serial")?;
        return Some(Wrong::of("--serial", value, SERIAL_WANTED));
    }
    None
}

/// If only one of `--algorithm` and `--signer` is given, it is the wrong option. If both are, the algorithm is unknown: `--algorithm` is wrong.
fn wrong_signer<'a>(given: &ArgMatches<'a>) -> Option<Wrong<'a>> {
    if signer_option(given).is_some() {
        return None;
    }
    let (option, value) = match text_of(given, "algorithm") {
        Some(name) => ("--algorithm", name),
        None => ("--signer", text_of(given, "signer")?),
    };
    Some(Wrong::of(option, value, SIGNER_WANTED))
}

/// The first of `RESPONDER_OPTIONS` that is given, if not all three are given, if `--embed` is given too, or if the algorithm is unknown.
fn wrong_responder<'a>(given: &ArgMatches<'a>) -> Option<Wrong<'a>> {
    if responder(given).is_some() {
        return None;
    }
    for (id, option) in RESPONDER_OPTIONS {
        if let Some(value) = text_of(given, id) {
            return Some(Wrong::of(option, value, RESPONDER_WANTED));
        }
    }
    None
}
