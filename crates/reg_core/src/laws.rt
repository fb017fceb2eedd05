//! Laws of octets, INTEGERs, serial numbers, moments and texts: contracts of empty functions. Proofs cite them through `proofs/PublicLaws.antt`.

ghost use Rattle.reg_core.specs.Laws.{OctetsAreDigits, OctetsAreBelow, ZerosCountNothing, OneSpelling, OctetsAreLowest, OctetsInOrder};
ghost use Rattle.reg_core.specs.Laws.{IntegersAreSpelled, OneInteger, OneNumber, IntegersAreShort, SerialsInOrder, OneSerial};
ghost use Rattle.reg_core.specs.Laws.{OneMoment, NumbersAreRead, SerialsAreRead, WrittenNumbersAreRead, WrittenSerialsAreRead};

/// n octets, big-endian, encode each number below 256^n once. Leading zeros don't change a number. Its lowest n octets encode it modulo 256^n.
pub fn octets_are_digits()
    ensures places { OctetsAreDigits }
    ensures below { OctetsAreBelow }
    ensures zeros { ZerosCountNothing }
    ensures one { OneSpelling }
    ensures lowest { OctetsAreLowest }
{}

/// Two lists of equally many octets, compared octet by octet, are in the order of the numbers that they encode.
pub fn octets_in_order()
    ensures { OctetsInOrder }
{}

/// Each number below 2^160 has one INTEGER (X.690 8.3), which no other number has. Its contents are at most 21 octets, 20 for a serial number.
pub fn one_integer()
    ensures spelled { IntegersAreSpelled }
    ensures one { OneInteger }
    ensures number { OneNumber }
    ensures short { IntegersAreShort }
{}

/// No two serial numbers have the same 20 octets, and these, compared octet by octet, are in the order of the serial numbers.
pub fn serials_in_order()
    ensures order { SerialsInOrder }
    ensures one { OneSerial }
{}

/// No two moments have the same text.
pub fn one_moment()
    ensures { OneMoment }
{}

/// A number, or a serial number, is read from exactly the texts that spell it. `Decimal` (for a number below 10^18) and `Serial` write one of these.
pub fn texts_are_read()
    ensures numbers { NumbersAreRead }
    ensures serials { SerialsAreRead }
    ensures written_numbers { WrittenNumbersAreRead }
    ensures written_serials { WrittenSerialsAreRead }
{}
