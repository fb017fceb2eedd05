//! The jobs of the program (`Job`), with their arguments and options. FILE, and each field `file`, is the path of a register.

ghost use Rattle.std.specs.Prelude.{◌≡◌};
ghost use Rattle.reg_desk_cli.specs.Statuses.{usage_status};

use crate::argument::{Argument, Steps};
use reg_core::Moment;
use reg_core_lists::{Cursor, Filter, Format};
use reg_crl_signer::Algorithm;

/// A signer: the path of the Unix socket at which it listens, and the algorithm of its signatures.
#[derive(Drop)]
pub struct SignerAddress<'a> {
    pub socket: Argument<'a>,
    pub algorithm: Algorithm,
}

/// The responder to OCSP requests for a register that is served (RFC 6960 2.2).
#[derive(Drop)]
pub enum ResponderChoice<'a> {
    /// The issuer: the signer of CRLs signs the responses too. Each signed response contains the certificate at the path `certificate`, if given.
    Issuer {
        certificate: Option<Argument<'a>>,
    },
    /// A responder with its own key and signer (`address`). Each signed response contains the certificate at that path (RFC 6960 4.2.2.2).
    Delegate {
        certificate: Argument<'a>,
        address: SignerAddress<'a>,
    },
}

/// The options of a script that has `--clock` or `--strict`.
#[derive(Clone, Copy, PartialEq, Eq)]
pub struct ScriptOptions {
    /// `--clock`: the lines have no moments of their own, and run at those of the machine's clock.
    pub is_clocked: bool,
    /// `--accept-clock`: the lines run even if the clock is more than 30 days past the moment of the last accepted command.
    pub accepts_clock: bool,
    /// `--strict`: the script ends at the first refusal or fault, and does not run a last line without its line end.
    pub is_strict: bool,
}

/// A register to be created. A certificate is valid for at most `days`; CRLs and OCSP responses have `crl_life` and `ocsp_life` seconds from
/// thisUpdate to nextUpdate; each table has at most `cap` rows.
#[derive(Drop)]
pub struct NewRegister<'a> {
    pub file: Argument<'a>,
    /// In hexadecimal: the DER of the issuer's Name, and the bits of its subjectPublicKey (RFC 5280 4.1.2.4, 4.1.2.7).
    pub name: Argument<'a>,
    pub key: Argument<'a>,
    /// The key identifier of the issuer's certificate, in hexadecimal (RFC 5280 4.2.1.2). Without it CRLs have the SHA-1 of the key.
    pub key_id: Option<Argument<'a>>,
    pub days: u64,
    pub crl_life: u64,
    pub ocsp_life: u64,
    pub cap: u64,
}

/// Runs the script of standard input, with `--clock` or `--strict`, over a register. Without a signer, a placeholder digest replaces each signature.
#[derive(Drop)]
pub struct LineScript<'a> {
    pub file: Argument<'a>,
    pub signer: Option<SignerAddress<'a>>,
    pub options: ScriptOptions,
}

/// Registers a certificate for each row of standard input, all at one moment. The last two fields are as in [`ScriptOptions`], but about rows.
#[derive(Drop)]
pub struct ImportJob<'a> {
    pub file: Argument<'a>,
    /// The moment of the import; `None` for that of the machine's clock when the import begins.
    pub moment: Option<Moment>,
    pub accepts_clock: bool,
    pub is_strict: bool,
}

/// An address of the loopback interface: 127.0.0.1 (RFC 1122 3.2.1.3) or `::1` (RFC 4291 2.5.3).
#[derive(Clone, Copy, PartialEq, Eq)]
pub enum Loopback {
    V4,
    V6,
}

/// Where HTTP connections are accepted: the address, and the TCP port from 1 to 65,535.
#[derive(Clone, Copy, PartialEq, Eq)]
pub struct Endpoint {
    pub address: Loopback,
    pub port: u16,
}

/// Answers some HTTP connections, and ends. With neither a signer of CRLs (`signer`) nor a delegate, a placeholder digest replaces each signature.
#[derive(Drop)]
pub struct ServeJob<'a> {
    pub file: Argument<'a>,
    pub endpoint: Endpoint,
    /// How many HTTP connections are answered, with at most one request each: 1 to 1,000,000.
    pub requests: u32,
    pub signer: Option<SignerAddress<'a>>,
    pub responder: ResponderChoice<'a>,
    /// The path of a published CRL. Nothing is served if its number is above that of the register's latest CRL, or if it lists a serial number that
    /// is not revoked in the register: then the register may be an old copy.
    pub published: Option<Argument<'a>>,
}

/// Keeps a register open until the program ends: answers requests over HTTP, and lines at a control socket, which it creates at the path `control`.
/// `signer`, `responder` and `published` are as in [`ServeJob`]. Without a signer, a placeholder digest replaces each signature if the issuer
/// responds (`--unsigned`); if a delegate does, no CRL is issued.
#[derive(Drop)]
pub struct OpenJob<'a> {
    pub file: Argument<'a>,
    pub endpoint: Endpoint,
    pub control: Argument<'a>,
    pub signer: Option<SignerAddress<'a>>,
    pub responder: ResponderChoice<'a>,
    pub published: Option<Argument<'a>>,
    /// How many followers must have a command before its reply is sent: 0 to 8.
    pub confirm_by: u64,
}

/// Where a follower reaches the HTTP port of its leader, the open desk that it follows.
#[derive(Drop)]
pub enum LeaderAddress<'a> {
    /// The port of 127.0.0.1, 1 to 65,535.
    Port(u16),
    /// The path of a Unix socket that leads to the leader's port.
    Socket(Argument<'a>),
}

/// A copy of the register of another desk, which is kept up to date and served.
#[derive(Drop)]
pub struct FollowJob<'a> {
    pub file: Argument<'a>,
    pub leader: LeaderAddress<'a>,
    pub endpoint: Endpoint,
    /// The path of the control socket, if there is one.
    pub control: Option<Argument<'a>>,
    /// The signer of OCSP responses, if the responder is the issuer. No CRL is signed.
    pub signer: Option<SignerAddress<'a>>,
    pub responder: ResponderChoice<'a>,
    /// For how many seconds the desk answers after the leader was last reached, 1 to 86,400.
    pub lag: u64,
    /// The number by which the leader tells its followers apart.
    pub number: u64,
}

/// Writes a list of a register's rows to standard output, as CSV with a header or as one JSON object for each line. `from` names the list: it is
/// the cursor before the list's first row. `moment` is the moment for which the list is made (`None` for that of the machine's clock).
#[derive(Drop)]
pub struct ListJob<'a> {
    pub file: Argument<'a>,
    pub from: Cursor,
    pub moment: Option<Moment>,
    pub filter: Filter,
    pub form: Format,
}

/// The order that is entered for each certificate: the id of its subscriber, and the longest validity in days of a certificate under it.
#[derive(Clone, Copy, PartialEq, Eq)]
pub struct OrderTerms {
    pub subscriber: u64,
    pub days: u64,
}

/// What is done with the certificate of each row of a file: it is registered under a new order; or its revocation is requested, and it is revoked.
#[derive(Clone, Copy, PartialEq, Eq)]
pub enum RowTask {
    Register(OrderTerms),
    Revoke,
}

/// A job of the program, with its arguments and options. A variant that has a struct is described at the struct.
#[derive(Drop)]
pub enum Job<'a> {
    Init(NewRegister<'a>),
    /// Runs a script as [`LineScript`] does, but without its options; over FILE, or over a register in memory if that is `None`.
    Script {
        file: Option<Argument<'a>>,
        signer: Option<SignerAddress<'a>>,
    },
    Lines(LineScript<'a>),
    Import(ImportJob<'a>),
    /// Writes, in DER, the CRL with this number; `None`: the latest one.
    Crl {
        file: Argument<'a>,
        number: Option<u64>,
    },
    Serve(ServeJob<'a>),
    Open(OpenJob<'a>),
    Follow(FollowJob<'a>),
    /// Sends the lines of standard input to a control socket. If `rows` is given, sends the rows of that CSV file instead, as `register` lines.
    At {
        control_path: Argument<'a>,
        rows: Option<Argument<'a>>,
    },
    /// Does `task` with the certificate of each row of the CSV file at the path `rows`, by lines that it sends to a control socket.
    EachRow {
        control_path: Argument<'a>,
        rows: Argument<'a>,
        task: RowTask,
    },
    /// Reads a log (the file at the path `log`), and sends its accepted commands to a control socket once more.
    Replay {
        control_path: Argument<'a>,
        log: Argument<'a>,
    },
    /// Sets the longest validity of a certificate in days, by its notBefore.
    Schedule {
        file: Argument<'a>,
        steps: Steps,
    },
    /// Sets the issuer's key identifier, in hexadecimal, for CRLs from the next one on (RFC 5280 5.2.1).
    KeyId {
        file: Argument<'a>,
        key_id: Argument<'a>,
    },
    Listing(ListJob<'a>),
    /// Copies the register to the path `path`, where no file may be yet. No program may have the register open.
    Copy {
        file: Argument<'a>,
        path: Argument<'a>,
    },
    /// Checks all rows of the register, and prints whether they are sound. No file changes.
    Audit {
        file: Argument<'a>,
    },
}

/// A job, and the options that are not part of it: `--why` (`is_explained`), `--log` (`has_log`) and `--log-file`.
#[derive(Drop)]
pub struct Invocation<'a> {
    pub job: Job<'a>,
    /// Whether one more line tells a failure's cause, if known; or, if a refused registration (E08, E09, E12) ended a strict run, why it was refused.
    pub is_explained: bool,
    /// Where `serve`, `open` and `follow` log each exchange: on standard error, in the file at this path, in both, or nowhere.
    pub has_log: bool,
    pub log_file: Option<Argument<'a>>,
}

/// Why there is no invocation: the text of help or of the version, for standard output; an error message, for standard error; or out of memory.
#[derive(Drop)]
pub enum Usage {
    Help(String),
    Version(String),
    Bad(String),
    Memory,
}

impl Usage {
    /// The exit status: 0 for help and the version, 2 if the command line can't be read, 1 if out of memory.
    pub fn status(&self) -> u8
        ensures { result ≡ usage_status self.now }
    {
        match self {
            Usage::Help(_) | Usage::Version(_) => 0,
            Usage::Bad(_) => 2,
            Usage::Memory => 1,
        }
    }
}
