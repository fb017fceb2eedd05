//! Theorems about DER values and issuers, as contracts of functions that do nothing. Proofs in other crates cite them by `proofs/PublicLaws.antt`.

ghost use Rattle.reg_der.specs.Der.{NoTwoPrefixes, LengthIsFewest, ValuesHaveSizes};
ghost use Rattle.reg_der.specs.ValueReading.{ReadsValues, EachValueIsRead};
ghost use Rattle.reg_der.specs.Authority.{IdentifiersFollow, NamesArePlain};

/// At most one prefix of any bytes is a DER value: the one that `take` gives.
pub fn no_two_prefixes()
    ensures { NoTwoPrefixes }
{}

/// The length octets of a DER value are the fewest that encode its length, in the short form or in the long form (X.690 8.1.3, 10.1).
pub fn length_is_fewest()
    ensures { LengthIsFewest }
{}

/// A DER value is 2 to 6 bytes longer than its contents; 2 if the contents have fewer than 128 bytes.
pub fn values_have_sizes()
    ensures { ValuesHaveSizes }
{}

/// The clause `exact` of `take` cites the definition `value_at`. This definition gives the DER value at the front of the bytes, if any.
pub fn values_are_read()
    ensures reads { ReadsValues }
    ensures again { EachValueIsRead }
{}

/// An issuer with one more key identifier has the same Name and key. CRLs from the given number on have that identifier; the ones before keep theirs.
pub fn identifiers_follow()
    ensures { IdentifiersFollow }
{}

/// If an issuer's stored name (`Issuer::stored_name`) is a Name and nothing else, that Name is the issuer's, and no key identifier was set.
pub fn names_are_plain()
    ensures { NamesArePlain }
{}
