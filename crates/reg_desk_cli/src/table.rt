//! The command line as a table: its commands, their arguments and options, and the help for each.

/// A positional argument or an option. The fields, in order: its id (for an option also its long name), the name of its value in `--help`, its help.
#[derive(Clone, Copy)]
pub(crate) enum Part {
    RequiredArgument(&'static str, &'static str, &'static str),
    OptionalArgument(&'static str, &'static str, &'static str),
    /// One or more arguments: all that are left.
    Rest(&'static str, &'static str, &'static str),
    RequiredOption(&'static str, &'static str, &'static str),
    /// As `RequiredOption`, with an older name after the id. The older name is accepted too, but help leaves it out.
    Renamed(&'static str, &'static str, &'static str, &'static str),
    OptionalOption(&'static str, &'static str, &'static str),
    /// An option that may be left out and takes several values: its id, the name of each value, and its help.
    Several(&'static str, &'static [&'static str], &'static str),
    /// An option that may be left out and takes no value: its id, and its help.
    Flag(&'static str, &'static str),
}

/// A command: its name; what it does, and examples, both as its help prints them; and its arguments and options.
#[derive(Clone, Copy)]
pub(crate) struct CommandEntry {
    pub(crate) name: &'static str,
    pub(crate) about: &'static str,
    pub(crate) example: &'static str,
    pub(crate) parts: &'static [Part],
}

const NEW_FILE: &str = "The register's file; it must be new or empty";

const NAME: &str = "The issuer's Name, its DER in hexadecimal, at most 1024 bytes";

const KEY: &str =
    "The issuer's public key, the bits of its subjectPublicKey in hexadecimal, 1 to 2048 bytes";

const KEY_ID: &str =
    "The key identifier of the CA certificate, its subjectKeyIdentifier in hexadecimal, 1 to 64 bytes";

const KEY_ID_OR_DIGEST: &str =
    "The key identifier of the CA certificate, its subjectKeyIdentifier in hexadecimal, 1 to 64 bytes [default: the SHA-1 of the key]";

const DAYS: &str = "The longest validity of a certificate in days, 1 to 398 [default: 398]";

const CRL_LIFE: &str =
    "Seconds from a CRL's thisUpdate to its nextUpdate, 1 to 863999 [default: 691200, eight days]";

const OCSP_LIFE: &str =
    "Seconds from an OCSP answer's thisUpdate to its nextUpdate, 28800 to 863999 [default: 345600, four days]";

const CAP: &str = "The most rows of each table of the register, 1 to 1000000 [default: 1000000]";

const FILE_OR_MEMORY: &str =
    "The register's file [default: a register in memory, of a sample issuer]";

const FILE: &str = "The register's file";

const NOW: &str =
    "The moment of the import in UTC, as 2026-01-01T00:00:00Z; needed without --clock";

const CLOCK_IMPORT: &str =
    "Instead of --now: import at the moment of the machine's clock as the import begins";

const NUMBER: &str = "The number of the CRL, 1 to 18 digits [default: the latest]";

const PORT: &str = "The TCP port, 1 to 65535";

const LISTEN: &str =
    "The loopback address at which the desk listens, 127.0.0.1 or [::1] [default: 127.0.0.1]";

const REQUESTS: &str = "How many HTTP connections to answer before the program ends, 1 to 1000000";

const SIGNER: &str =
    "The Unix socket of the signer with the issuer's key [default: no signer, and a placeholder digest replaces each signature with this key]";

const OPEN_SIGNER: &str =
    "The Unix socket of the signer with the issuer's key; needs --algorithm; leave it out only with --unsigned, or with --responder: with a responder and no --signer, no CRL is signed";

const UNSIGNED: &str =
    "Instead of --signer: CRLs and answers get a placeholder digest instead of a signature, which no client accepts; not with --responder";

const ALGORITHM: &str =
    "The algorithm of the signer at --signer: ecdsa-sha256, ecdsa-sha384, rsa-sha256 or ed25519";

const RESPONDER_ALGORITHM: &str =
    "The algorithm of the signer at --responder-signer: ecdsa-sha256, ecdsa-sha384, rsa-sha256 or ed25519";

const RESPONDER: &str =
    "The file of the OCSP responder's certificate, in DER; its own key then signs the answers [default: none, and the signer of CRLs signs them]";

const RESPONDER_SIGNER: &str = "The Unix socket of the signer with the responder's key";

const EMBED: &str =
    "The file of the CA's certificate, in DER, to put into each OCSP answer [default: none]";

const CLOCK: &str =
    "Lines have no moment: each runs at the moment of the machine's clock; needs FILE [default: a line begins with its moment]";

const ACCEPT_CLOCK: &str =
    "With --clock: run even if the clock is more than 30 days past the last accepted moment [default: fail with bad-clock]";

const STRICT: &str =
    "Stop at the first refusal or fault, and do not run a last line without its line end: exit status 3; needs FILE [default: run all lines]";

const STRICT_IMPORT: &str =
    "Stop at the first refusal or fault, and do not register a last row without its line end: exit status 3 [default: register all rows]";

const CONTROL: &str =
    "The Unix socket at which the open desk takes commands; it is created with mode 0600";

const PUBLISHED: &str =
    "A published CRL in DER: if its number is above that of the register's latest CRL, or if it lists serial numbers that aren't revoked, nothing is served, and standard output has a line for the CRL's number and for each such serial number that the register lacks";

const CONFIRM_BY: &str =
    "How many followers must have a command before its reply is sent, 1 to 8 [default: replies don't wait]";

const FOLLOW_FILE: &str = "The file of the copy; it is created if it is missing";

const LEADER: &str =
    "The open desk to follow: 127.0.0.1:PORT, or the path of a Unix socket that leads to its port";

const FOLLOW_CONTROL: &str =
    "The Unix socket at which the desk takes queries, but no commands; it is created with mode 0600 [default: none]";

const LAG: &str =
    "For how many seconds to answer after the leader was last reached, 1 to 86400 [default: 60]";

const FOLLOWER: &str =
    "The number of this follower, 1 to 18 digits; a leader with --confirm-by counts each number once, so give each of its followers its own [default: 0]";

const FOLLOW_SIGNER: &str =
    "The Unix socket of the signer with the issuer's key, for OCSP answers; needs --algorithm; leave it out only with --unsigned, or with --responder";

const FOLLOW_UNSIGNED: &str =
    "Instead of --signer: OCSP answers get a placeholder digest instead of a signature, which no client accepts; not with --responder";

const AT_CONTROL: &str =
    "The control socket of an open desk: the path that it was given by --control";

const AT_IMPORT: &str =
    "Instead of standard input: register each certificate of this CSV file, order,serial,notBefore,notAfter";

const AT_ORDERS: &str =
    "With --import: make an order of DAYS days for each certificate, of the subscriber with the id SUBSCRIBER, which the reply to `subscriber NAME` has; the rows are serial,notBefore,notAfter; run it again to resume";

const AT_REVOKE: &str =
    "Instead of standard input: request and revoke the certificate of each row of this file, serial,ground; run it again to resume";

const REPLAY: &str = "The log of an open desk, as --log and --log-file write it";

const COPY: &str = "The path of the copy, which must not exist yet";

const STEPS: &str =
    "From MOMENT on at most DAYS days, 1 to 398; 1 to 16 steps, the first at 1970-01-01T00:00:00Z, moments ascending";

const LIST: &str =
    "revoked, certificates, ending, open-requests, overdue, requests, subscribers, orders or crls";

const BEFORE_MOMENT: &str =
    "For the list ending: only certificates whose notAfter is before it, in UTC, as 2026-02-01T00:00:00Z";

const LIST_NOW: &str =
    "The moment for which the list gives each status, in UTC, as 2026-01-01T00:00:00Z [default: the machine's clock]";

const SUBSCRIBER: &str = "Only rows of the subscriber with this name";

const SERIAL: &str =
    "Only serial numbers that begin with these 1 to 40 hexadecimal digits, with or without leading zeros";

const FROM: &str =
    "Only rows from this moment on: a certificate's notBefore, a request's receipt, the moment of a revocation, a CRL's thisUpdate";

const TO: &str = "Only rows before this moment; --from says which moment a row has";

const JSON: &str = "Write one JSON object a line [default: CSV with a header]";

const LOG: &str = "Log each exchange in a line on standard error";

const LOG_FILE: &str =
    "Log each exchange in a line of this file, which is opened anew for each line; with --log or instead of it";

const CAUSE: &str = "Print the cause of a failure in a second line, if it is known";

const CAUSE_OR_REASON: &str =
    "Print in a second line the cause of a failure, or with --strict why a registration was refused, if it is known";

const CAUSE_ANYWHERE: &str =
    "Print the cause of a failure in a second line, if it is known; also after a command";

pub(crate) const OPTIONS_BEFORE_COMMAND: &[Part] = &[Part::Flag("why", CAUSE_ANYWHERE)];

/// The commands that help lists first, in its order; then come [`OTHER_COMMANDS`]. One long constant would slow the proofs of functions that use it.
pub(crate) const FIRST_COMMANDS: &[CommandEntry] = &[
    CommandEntry {
        name: "init",
        about: "Make a new register in a file.",
        example: "Example:\n  desk init ca.db --name 300C310A300806035504030C0154 --key 0102",
        parts: &[
            Part::RequiredArgument("file", "FILE", NEW_FILE),
            Part::RequiredOption("name", "HEX", NAME),
            Part::RequiredOption("key", "HEX", KEY),
            Part::OptionalOption("key-id", "HEX", KEY_ID_OR_DIGEST),
            Part::OptionalOption("days", "N", DAYS),
            Part::OptionalOption("crl-life", "N", CRL_LIFE),
            Part::OptionalOption("ocsp-life", "N", OCSP_LIFE),
            Part::OptionalOption("cap", "N", CAP),
            Part::Flag("why", CAUSE),
        ],
    },
    CommandEntry {
        name: "script",
        about: "Run the lines of standard input, and write one reply line for each.",
        example: "Examples:\n  echo '2026-01-01T00:00:00Z counts' | desk script ca.db\n  echo counts | desk script ca.db --clock --strict",
        parts: &[
            Part::OptionalArgument("file", "FILE", FILE_OR_MEMORY),
            Part::OptionalOption("signer", "SOCKET", SIGNER),
            Part::OptionalOption("algorithm", "NAME", ALGORITHM),
            Part::Flag("clock", CLOCK),
            Part::Flag("accept-clock", ACCEPT_CLOCK),
            Part::Flag("strict", STRICT),
            Part::Flag("why", CAUSE_OR_REASON),
        ],
    },
    CommandEntry {
        name: "import",
        about: "Register the certificates of a CSV file on standard input: order,serial,notBefore,notAfter.",
        example: "Examples:\n  desk import ca.db --now 2026-01-01T00:00:00Z < certificates.csv\n  desk import ca.db --clock --strict < certificates.csv",
        parts: &[
            Part::RequiredArgument("file", "FILE", FILE),
            Part::OptionalOption("now", "MOMENT", NOW),
            Part::Flag("clock", CLOCK_IMPORT),
            Part::Flag("accept-clock", ACCEPT_CLOCK),
            Part::Flag("strict", STRICT_IMPORT),
            Part::Flag("why", CAUSE_OR_REASON),
        ],
    },
    CommandEntry {
        name: "crl",
        about: "Write an issued CRL to standard output, in DER.",
        example: "Example:\n  desk crl ca.db > latest.crl",
        parts: &[
            Part::RequiredArgument("file", "FILE", FILE),
            Part::OptionalOption("number", "N", NUMBER),
            Part::Flag("why", CAUSE),
        ],
    },
    CommandEntry {
        name: "serve",
        about: "Answer OCSP, CRLs and status over HTTP on the loopback interface, by the machine's clock.",
        example: "Example:\n  desk serve ca.db --port 8080 --requests 1000",
        parts: &[
            Part::RequiredArgument("file", "FILE", FILE),
            Part::RequiredOption("port", "N", PORT),
            Part::OptionalOption("listen", "ADDRESS", LISTEN),
            Part::RequiredOption("requests", "N", REQUESTS),
            Part::OptionalOption("signer", "SOCKET", SIGNER),
            Part::OptionalOption("algorithm", "NAME", ALGORITHM),
            Part::OptionalOption("responder", "CERT", RESPONDER),
            Part::OptionalOption("responder-signer", "SOCKET", RESPONDER_SIGNER),
            Part::OptionalOption("responder-algorithm", "NAME", RESPONDER_ALGORITHM),
            Part::OptionalOption("embed", "CERT", EMBED),
            Part::OptionalOption("published", "CRL", PUBLISHED),
            Part::Flag("log", LOG),
            Part::OptionalOption("log-file", "PATH", LOG_FILE),
            Part::Flag("why", CAUSE),
        ],
    },
    CommandEntry {
        name: "open",
        about: "Keep a register open until the program is ended: HTTP on the loopback interface, and commands at a control socket, by the machine's clock.",
        example: "Example:\n  desk open ca.db --port 8080 --control ca.control --signer ca.sign --algorithm ecdsa-sha256",
        parts: &[
            Part::RequiredArgument("file", "FILE", FILE),
            Part::RequiredOption("port", "N", PORT),
            Part::OptionalOption("listen", "ADDRESS", LISTEN),
            Part::Renamed("control", "counter", "SOCKET", CONTROL),
            Part::OptionalOption("signer", "SOCKET", OPEN_SIGNER),
            Part::OptionalOption("algorithm", "NAME", ALGORITHM),
            Part::Flag("unsigned", UNSIGNED),
            Part::OptionalOption("responder", "CERT", RESPONDER),
            Part::OptionalOption("responder-signer", "SOCKET", RESPONDER_SIGNER),
            Part::OptionalOption("responder-algorithm", "NAME", RESPONDER_ALGORITHM),
            Part::OptionalOption("embed", "CERT", EMBED),
            Part::OptionalOption("published", "CRL", PUBLISHED),
            Part::OptionalOption("confirm-by", "N", CONFIRM_BY),
            Part::Flag("log", LOG),
            Part::OptionalOption("log-file", "PATH", LOG_FILE),
            Part::Flag("why", CAUSE),
        ],
    },
];

pub(crate) const OTHER_COMMANDS: &[CommandEntry] = &[
    CommandEntry {
        name: "follow",
        about: "Keep a copy of an open desk's register up to date, and answer OCSP, CRLs and status over HTTP on the loopback interface; it takes no commands.",
        example: "Example:\n  desk follow copy.db --from 127.0.0.1:8080 --port 8081 --responder r.der --responder-signer r.sign --responder-algorithm ecdsa-sha256\n\nThe file is created if it is missing. Exit status 1 with the line diverged if the leader lacks a record of the copy.",
        parts: &[
            Part::RequiredArgument("file", "FILE", FOLLOW_FILE),
            Part::RequiredOption("from", "ADDRESS", LEADER),
            Part::RequiredOption("port", "N", PORT),
            Part::OptionalOption("listen", "ADDRESS", LISTEN),
            Part::OptionalOption("control", "SOCKET", FOLLOW_CONTROL),
            Part::OptionalOption("lag", "SECONDS", LAG),
            Part::OptionalOption("follower", "N", FOLLOWER),
            Part::OptionalOption("signer", "SOCKET", FOLLOW_SIGNER),
            Part::OptionalOption("algorithm", "NAME", ALGORITHM),
            Part::Flag("unsigned", FOLLOW_UNSIGNED),
            Part::OptionalOption("responder", "CERT", RESPONDER),
            Part::OptionalOption("responder-signer", "SOCKET", RESPONDER_SIGNER),
            Part::OptionalOption("responder-algorithm", "NAME", RESPONDER_ALGORITHM),
            Part::OptionalOption("embed", "CERT", EMBED),
            Part::Flag("log", LOG),
            Part::OptionalOption("log-file", "PATH", LOG_FILE),
            Part::Flag("why", CAUSE),
        ],
    },
    CommandEntry {
        name: "at",
        about: "Send the lines of standard input to an open desk, and write one reply line for each; a line has no moment.",
        example: "Examples:\n  echo counts | desk at ca.control\n  desk at ca.control --import certificates.csv\n  desk at ca.control --import new.csv --orders 1 398\n  desk at ca.control --revoke revocations.csv\n\nExit status 3 if a reply is a refusal or a fault (with --revoke, not E19), or if the last line has no line end: that line does not run.",
        parts: &[
            Part::RequiredArgument("control", "SOCKET", AT_CONTROL),
            Part::OptionalOption("import", "FILE", AT_IMPORT),
            Part::Several("orders", &["SUBSCRIBER", "DAYS"], AT_ORDERS),
            Part::OptionalOption("revoke", "FILE", AT_REVOKE),
            Part::Flag("why", CAUSE),
        ],
    },
    CommandEntry {
        name: "replay",
        about: "Send the accepted commands of a log to an open desk once more, and write one reply line for each; a request is named by its serial number.",
        example: "Example:\n  desk replay ca.control ca.log\n\nExit status 3 at the first reply that differs from the one in the log, or at a command that the log has only in part: the log's line is printed last, and no further command is sent.",
        parts: &[
            Part::RequiredArgument("control", "SOCKET", AT_CONTROL),
            Part::RequiredArgument("log", "LOG", REPLAY),
            Part::Flag("why", CAUSE),
        ],
    },
    CommandEntry {
        name: "schedule",
        about: "Set how many days a certificate may be valid, by the moment from which it is valid.",
        example: "Example:\n  desk schedule ca.db 1970-01-01T00:00:00Z=398 2026-03-15T00:00:00Z=200",
        parts: &[
            Part::RequiredArgument("file", "FILE", FILE),
            Part::Rest("steps", "MOMENT=DAYS", STEPS),
            Part::Flag("why", CAUSE),
        ],
    },
    CommandEntry {
        name: "key-id",
        about: "Set the key identifier of the CA certificate, which CRLs have from the next one on.",
        example: "Example:\n  desk key-id ca.db 0A1B2C3D4E5F",
        parts: &[
            Part::RequiredArgument("file", "FILE", FILE),
            Part::RequiredArgument("key-id", "HEX", KEY_ID),
            Part::Flag("why", CAUSE),
        ],
    },
    CommandEntry {
        name: "list",
        about: "Write a list of the register to standard output, by ascending serial number, id or CRL number.",
        example: "Examples:\n  desk list ca.db revoked\n  desk list ca.db ending --before 2026-02-01T00:00:00Z --json\n  desk list ca.db requests --from 2026-01-01T00:00:00Z --to 2026-04-01T00:00:00Z",
        parts: &[
            Part::RequiredArgument("file", "FILE", FILE),
            Part::RequiredArgument("list", "LIST", LIST),
            Part::OptionalOption("before", "MOMENT", BEFORE_MOMENT),
            Part::OptionalOption("now", "MOMENT", LIST_NOW),
            Part::OptionalOption("subscriber", "NAME", SUBSCRIBER),
            Part::OptionalOption("serial", "PREFIX", SERIAL),
            Part::OptionalOption("from", "MOMENT", FROM),
            Part::OptionalOption("to", "MOMENT", TO),
            Part::Flag("json", JSON),
            Part::Flag("why", CAUSE),
        ],
    },
    CommandEntry {
        name: "copy",
        about: "Copy a register that no program has open, with the changes in its -wal file, into one new file.",
        example: "Example:\n  desk copy ca.db /var/backups/ca/ca.db\n\nAn open register is copied by the line `copy PATH` at its control socket: echo copy /var/backups/ca/ca.db | desk at ca.control",
        parts: &[
            Part::RequiredArgument("file", "FILE", FILE),
            Part::RequiredArgument("path", "PATH", COPY),
            Part::Flag("why", CAUSE),
        ],
    },
    CommandEntry {
        name: "audit",
        about: "Read all rows of a register, and print whether its records are sound; nothing is changed.",
        example: "Example:\n  desk audit ca.db\n\nExit status 1 if the register is not sound: a line names the table and the index of a row, from 1 on, or the schema.",
        parts: &[
            Part::RequiredArgument("file", "FILE", FILE),
            Part::Flag("why", CAUSE),
        ],
    },
];
