//! The effects of an HTTP exchange, or of a line at the control socket, on the signers and the store, as the metrics count them.

ghost use Rattle.std.specs.Prelude.{◌≡◌};
ghost use Rattle.reg_office_api.specs.Responses.{store_of_fault};

use reg_core::Fault;

/// Whether an exchange or a line requested a signature, and whether the signer made it.
#[derive(Clone, Copy, PartialEq, Eq)]
pub enum SignatureOutcome {
    NotRequested,
    Made,
    /// The signer failed, gave no answer in time, or was not asked during its back-off; or there is no signer.
    Failed,
}

/// The effect of an exchange or a line on the store: nothing was written, an accepted command or a schedule was written, or the store failed.
#[derive(Clone, Copy, PartialEq, Eq)]
pub enum StoreEffect {
    Unwritten,
    Written,
    Failed,
}

impl StoreEffect {
    /// The effect of a call that returned this fault: `Failed` only for [`Fault::Store`], else `Unwritten`.
    pub fn of_fault(fault: &Fault) -> StoreEffect
        ensures { result ≡ store_of_fault fault.now }
    {
        match *fault {
            Fault::Store => StoreEffect::Failed,
            _ => StoreEffect::Unwritten,
        }
    }
}

/// The kind of the reply to a line. `Accepted`: the line succeeded (also a query). `Refused`: a code such as `E01`, or a failure without a code.
#[derive(Clone, Copy, PartialEq, Eq)]
pub enum LineReply {
    Accepted,
    Refused,
    /// The reply is a fault (F1 to F5: see `reg_core::Fault`), or there was no memory for a reply.
    Fault,
}

/// The kind of the reply to a line; whether the line requested a CRL's signature (`crl`) or an OCSP response's (`ocsp`); its effect on the store.
#[derive(Clone, Copy, PartialEq, Eq)]
pub struct LineEffects {
    pub reply: LineReply,
    pub crl: SignatureOutcome,
    pub ocsp: SignatureOutcome,
    pub store: StoreEffect,
}
