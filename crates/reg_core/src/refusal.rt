ghost use Rattle.std.specs.Prelude.{◌≡◌, ℕ, ◌+◌, ◌≤◌, ◌++◌, length};
ghost use Rattle.reg_core.specs.Lines.{fault_line, refusal_line};

use crate::label::Label;
use crate::memory::Memory;
use crate::moment::Moment;
use crate::number::Decimal;

/// Why a command or query is refused; the register stays as it is. Its code, such as E01, begins its [`line`](Refusal::line).
#[derive(Clone, Copy, PartialEq, Eq)]
pub enum Refusal {
    // E01: the moment is before the last accepted one, `last`. E02: from 9999-12-22T00:00:00Z on, when a nextUpdate might be after the year 9999.
    ClockBack { last: Moment },
    ClockEnd,
    /// E03: the table that would grow has reached the policy's limit of rows.
    Full,
    /// E04: the name has a byte that is not a letter, digit, dot, hyphen or underscore.
    BadName,
    // E05: the subscriber with this id has the name already. E06: no subscriber has the id.
    NameTaken { id: u64 },
    NoSubscriber,
    /// E07: the days of an order are 0, or more than `most`, the longest validity that the policy allows for some notBefore.
    BadDays { most: u64 },
    // E08: no order has the id. E09: a certificate fills the order already. E10: another certificate has the serial number.
    NoOrder,
    OrderFilled,
    SerialTaken,
    // E11: notAfter is before notBefore. E12: a longer validity than ordered or than the policy allows. E13: notAfter is before the command's moment.
    BadValidity,
    TooLong,
    Ended,
    // E14: no certificate has the serial number. E15: the ground is `hold`, but there is no certificateHold. E16: no ground has the name.
    UnknownSerial,
    NoHold,
    BadGround,
    // E17: no request has the id. E18: the request was declined. E19: the certificate was revoked at `at`. E20: it is past notAfter.
    NoRequest,
    DeclinedBefore,
    RevokedBefore { at: Moment },
    Expired,
    // E21: no CRL was issued, or none with this number. E22: the line, the row of an import, or the path or body of an HTTP request can't be read.
    NoCrl,
    Syntax,
}

/// Why a command, a query or a job of the program did not succeed: a refusal, or a failure of memory, store, signer, input or output.
#[derive(Clone, Copy, PartialEq, Eq)]
pub enum Fault {
    Refused(Refusal),
    // F1: out of memory. F2: the store (the SQL tables) failed, or has an invalid value. F3: the signer failed. F4: the input, the clock or a socket
    // failed, or the input is longer than allowed. F5: the output failed.
    Memory,
    Store,
    Signer,
    Read,
    Write,
}

impl From<Refusal> for Fault {
    ghost use Rattle.std.specs.Prelude.{◌≡◌};
    ghost use Rattle.reg_core.specs.declared.refusal.Fault.TheVariants.{Refused};

    ghost from_gives = { λ refusal fault. fault ≡ Refused refusal };

    fn from(refusal: Refusal) -> Fault {
        Fault::Refused(refusal)
    }
}

impl From<Memory> for Fault {
    ghost use Rattle.std.specs.Prelude.{◌≡◌};
    ghost use Rattle.reg_core.specs.declared.refusal.Fault.TheVariants.{Memory as LackedMemory};

    ghost from_gives = { λ _ fault. fault ≡ LackedMemory };

    fn from(_memory: Memory) -> Fault {
        Fault::Memory
    }
}

/// The label with this text. A label may have 64 bytes; no text here has more than 30.
fn line_of(text: &[u8]) -> Label
    requires not_empty { 1 ≤ length text.now }
    requires short { length text.now ≤ 30 }
    ensures { result ≡ text.now }
{
    Label::joined(text, b"")
}

impl Refusal {
    /// The line that reports the refusal, without LF.
    #[tactic(auto, unfolding(crate::specs::Lines::refusal_line))]
    pub fn line(&self) -> Label
        ensures { result ≡ refusal_line self.now }
    {
        match *self {
            Refusal::ClockBack { last } => Label::joined(b"E01 clock-back ", &last.text()),
            Refusal::ClockEnd => line_of(b"E02 clock-end"),
            Refusal::Full => line_of(b"E03 full"),
            Refusal::BadName => line_of(b"E04 bad-name"),
            Refusal::NameTaken { id } => Label::joined(
                b"E05 name-taken ",
                Decimal::of(id).as_bytes(),
            ),
            Refusal::NoSubscriber => line_of(b"E06 no-subscriber"),
            Refusal::BadDays { most } => Label::joined(
                b"E07 bad-days ",
                Decimal::of(most).as_bytes(),
            ),
            Refusal::NoOrder => line_of(b"E08 no-order"),
            Refusal::OrderFilled => line_of(b"E09 order-filled"),
            Refusal::SerialTaken => line_of(b"E10 serial-taken"),
            Refusal::BadValidity => line_of(b"E11 bad-validity"),
            Refusal::TooLong => line_of(b"E12 too-long"),
            Refusal::Ended => line_of(b"E13 ended"),
            Refusal::UnknownSerial => line_of(b"E14 unknown-serial"),
            Refusal::NoHold => line_of(b"E15 no-hold"),
            Refusal::BadGround => line_of(b"E16 bad-ground"),
            Refusal::NoRequest => line_of(b"E17 no-request"),
            Refusal::DeclinedBefore => line_of(b"E18 declined-before"),
            Refusal::RevokedBefore { at } => Label::joined(b"E19 revoked-before ", &at.text()),
            Refusal::Expired => line_of(b"E20 expired"),
            Refusal::NoCrl => line_of(b"E21 no-crl"),
            Refusal::Syntax => line_of(b"E22 syntax"),
        }
    }
}

impl Fault {
    /// The line that reports the fault, without LF.
    #[tactic(auto, unfolding(crate::specs::Lines::fault_line))]
    pub fn line(&self) -> Label
        ensures { result ≡ fault_line self.now }
    {
        match *self {
            Fault::Refused(refusal) => refusal.line(),
            Fault::Memory => line_of(b"F1 memory"),
            Fault::Store => line_of(b"F2 store"),
            Fault::Signer => line_of(b"F3 signer"),
            Fault::Read => line_of(b"F4 read"),
            Fault::Write => line_of(b"F5 write"),
        }
    }
}
