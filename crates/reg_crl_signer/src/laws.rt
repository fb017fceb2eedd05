//! A law (a proved theorem) about persistent connections to a signer. The function does nothing: its contract is the law.

ghost use Rattle.std.specs.Prelude.{◌≡◌, []};
ghost use Rattle.reg_crl_signer.specs.PersistentConnections.{HasExchanged, ReceivesOn, SendsOneMore, TakesOneMore};
ghost use Rattle.reg_crl_signer.specs.SignerConnections.{IsNewConnection};
ghost use Rattle.reg_crl_signer.specs.declared.signer_connection.SignerConnection.{SignerConnection};

use crate::signer_connection::{Framing, Progress};
use std::io::{Read, Write};

/// The n-th answer that comes on a persistent connection is taken as that to the n-th message sent on it. `SignerConnection::receive`, `send_next`
/// and `take_answer` preserve this (`HasExchanged`). No clause states which bytes a socket carries, nor that the signer answers in order.
pub fn each_answer_is_to_its_message<S: Read + Write>()
    ensures begins { (stream : S) (it : SignerConnection S)
        → IsNewConnection stream Framing.ByLength Progress.Idle it
        → HasExchanged S.Write.contents S.Read.remaining stream it [] [] }
    ensures receives { ReceivesOn S.Write.contents S.Read.remaining }
    ensures sends { SendsOneMore S.Write.contents S.Read.remaining }
    ensures takes { TakesOneMore S.Write.contents S.Read.remaining }
{}
