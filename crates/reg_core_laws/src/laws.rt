//! Each function here does nothing: its contract is a law, which the prover checks. `S.signed` relates the fields of a CRL to its signed DER.

ghost use Rattle.reg_core_laws.specs.Headline.{CreatedSound, KeepsSound, RunsInParts, HasExactlyOneStatus, CountsMoveExactly, ListsRevoked, RefusalsChangeNothing};
ghost use Rattle.reg_core_laws.specs.Extends.{RunsExtend};
ghost use Rattle.reg_core_laws.specs.History.{HistoryIsKept};
ghost use Rattle.reg_core_laws.specs.Import.{ImportsTwice};
ghost use Rattle.reg_core_laws.specs.Reached.{ReachedIsSound, CreatedReached, KeepsReached, SchedulesKeepReached};
ghost use Rattle.reg_core_laws.specs.Revocations.{RevocationsMoveExactly};

use reg_core::SignsCrls;

/// The main law, for every list of commands and signer of CRLs, from a new register or from sound records (reg_core's `Sound`: rows that agree). From
/// the last accepted moment until `Moment::CLOCK_END`, each registered serial number is exactly one of good, revoked and expired. Only accepted
/// commands and time change the number of each. Every CRL after a revocation lists it, through the first with a thisUpdate after its certificate's
/// notAfter (RFC 5280 3.3). No CRL has any other entry. A refused or failed command changes nothing. `parts`: a list can be run in parts.
pub fn headline<S: SignsCrls>()
    ensures created { (signer : S) → CreatedSound (S.signed signer) }
    ensures sound { (signer : S) → KeepsSound (S.signed signer) }
    ensures parts { (signer : S) → RunsInParts (S.signed signer) }
    ensures exactly_one { (signer : S) → HasExactlyOneStatus (S.signed signer) }
    ensures counts { (signer : S) → CountsMoveExactly (S.signed signer) }
    ensures lists { (signer : S) → ListsRevoked (S.signed signer) }
    ensures refused { (signer : S) → RefusalsChangeNothing (S.signed signer) }
{}

/// Records are reached (reg_core's `Reached`) if they are sound and obey more rules. `desk audit` checks all these rules, but verifies no signature.
/// A new register with a valid policy has reached records. Every list of commands and every valid new schedule keeps them reached.
pub fn reached<S: SignsCrls>()
    ensures is_sound { (signer : S) → ReachedIsSound (S.signed signer) }
    ensures created { (signer : S) → CreatedReached (S.signed signer) }
    ensures kept { (signer : S) → KeepsReached (S.signed signer) }
    ensures scheduled { (signer : S) → SchedulesKeepReached (S.signed signer) }
{}

/// Exactly these CRLs list a revoked serial number: the number `first` of its revocation, and each later one. The first of them with a thisUpdate
/// after notAfter is the last, once it is issued. CRLs list nothing else. A recorded CRL stays signed; its entries and signed fields never change.
pub fn history<S: SignsCrls>()
    ensures { (signer : S) → HistoryIsKept (S.signed signer) }
{}

/// After every list of commands, each table has its former rows in the same order, and perhaps more after them. A former row is as it was, except
/// that a request may now be declined. The issuer and the policy stay, and the last accepted moment does not go back.
pub fn additions<S: SignsCrls>()
    ensures { (signer : S) → RunsExtend (S.signed signer) }
{}

/// Only a command with the reply `Revoked` adds a revocation: one, of its request's serial number, at the command's moment, with the reasonCode of
/// its request's ground. No command changes or removes a revocation.
pub fn revocations<S: SignsCrls>()
    ensures { (signer : S) → RevocationsMoveExactly (S.signed signer) }
{}

/// An import of certificates is repeated at the same moment, with nothing between. If the first had no fault (F1 to F5; a refusal is none), the
/// second adds no certificate: each row that got the reply `Registered` or `Same` (registered already) now gets `Same`, or a fault.
pub fn import_twice<S: SignsCrls>()
    ensures { (signer : S) → ImportsTwice (S.signed signer) }
{}
