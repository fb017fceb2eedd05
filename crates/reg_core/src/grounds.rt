ghost use Rattle.std.specs.Prelude.{◌≡◌, ◌≤◌};
ghost use Rattle.reg_core.specs.Grounds.{ground_or_refusal, limit_of, reason_of};

use crate::refusal::Refusal;

/// A ground of revocation: why a certificate is to be revoked (docs/RULES.md, "Grounds"). `Unauthorized`: the subscriber did not authorize the order.
/// `ControlLost`: the subscriber's control of the certificate's names can't be relied on. `NameNotPermitted`: one of the names may no longer be used.
/// `Nonconforming`: the certificate was not issued as the rules for the CA require. `Inaccurate`: the certificate has inaccurate information.
#[derive(Clone, Copy, PartialEq, Eq)]
pub enum Ground {
    /// The subscriber asks for the revocation.
    Asked,
    Unauthorized,
    KeyCompromise,
    ControlLost,
    Affiliation,
    Superseded,
    Cessation,
    Misuse,
    NameNotPermitted,
    Nonconforming,
    Inaccurate,
}

impl Ground {
    /// The ground with the name `word`. `NoHold` for `hold`, because a register has no certificateHold; `BadGround` if no ground has the name.
    pub fn read(word: &[u8]) -> Result<Ground, Refusal>
        ensures { result ≡ ground_or_refusal word.now }
    {
        match word {
            _ if word == b"asked".as_slice() => Ok(Ground::Asked),
            _ if word == b"unauthorized".as_slice() => Ok(Ground::Unauthorized),
            _ if word == b"key-compromise".as_slice() => Ok(Ground::KeyCompromise),
            _ if word == b"control-lost".as_slice() => Ok(Ground::ControlLost),
            _ if word == b"affiliation".as_slice() => Ok(Ground::Affiliation),
            _ if word == b"superseded".as_slice() => Ok(Ground::Superseded),
            _ if word == b"cessation".as_slice() => Ok(Ground::Cessation),
            _ if word == b"misuse".as_slice() => Ok(Ground::Misuse),
            _ if word == b"name-not-permitted".as_slice() => Ok(Ground::NameNotPermitted),
            _ if word == b"nonconforming".as_slice() => Ok(Ground::Nonconforming),
            _ if word == b"inaccurate".as_slice() => Ok(Ground::Inaccurate),
            _ if word == b"hold".as_slice() => Err(Refusal::NoHold),
            _ => Err(Refusal::BadGround),
        }
    }

    /// The seconds from the receipt of a request on this ground to its deadline: one day, or five.
    pub fn limit_secs(self) -> u64
        ensures limit { result ≡ limit_of self }
        ensures at_most_five_days { result ≤ 432000 }
    {
        match self {
            Ground::Misuse
            | Ground::NameNotPermitted
            | Ground::Nonconforming
            | Ground::Inaccurate => 432_000,
            _ => 86_400,
        }
    }

    /// The reasonCode of a revocation on this ground (RFC 5280 5.3.1).
    pub fn reason(self) -> u8
        ensures reason { result ≡ reason_of self }
        ensures code { result ≤ 9 }
    {
        match self {
            Ground::Asked => 0,
            Ground::KeyCompromise => 1,
            Ground::Affiliation => 3,
            Ground::ControlLost | Ground::Superseded | Ground::Nonconforming => 4,
            Ground::Cessation | Ground::NameNotPermitted => 5,
            Ground::Unauthorized | Ground::Misuse | Ground::Inaccurate => 9,
        }
    }
}
