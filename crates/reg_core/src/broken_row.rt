/// A table that can have a broken row. The schedule of longest validities (`longest`) can't: if it is invalid, the audit ends with an error.
#[derive(Clone, Copy)]
pub enum RegisterTable {
    Office,
    Subscriber,
    Orders,
    Cert,
    Request,
    Revocation,
    Crl,
    // Derived from the others. `Standing`: each certificate's state. `Kept`: how many have each state. `Listed`: CRL entries; which CRLs list them.
    Standing,
    Kept,
    Listed,
}

/// What is wrong with a row ("it"); `lines.rt` has a text for each. `SameName`: an earlier row has that name. `NoOrder`: there is no such order.
#[derive(Clone, Copy)]
pub enum Defect {
    /// The last accepted moment is 9999-12-22T00:00:00Z or later. No command is accepted then (`E02`): a nextUpdate could be after the year 9999.
    PastClockEnd,
    /// There is no subscriber, so only the command `crl` can have been accepted; but the last accepted moment is neither 0 nor a CRL's thisUpdate.
    NeverAccepted,
    /// The table has more rows than the policy allows.
    AboveCap,
    /// Its id, rowid or CRL number (RFC 5280 5.2.3) is not one more than the previous row's; in the first row, it is not 1.
    OutOfOrder,
    /// Its name has a byte that the command `subscriber` refuses.
    BadName,
    SameName,
    /// The days of an order, or the column `days` of `office`, are not 1 to 398.
    BadDays,
    SameSerial,
    SameOrder,
    SameRequest,
    NoSubscriber,
    NoOrder,
    ReversedValidity,
    /// Its validity, both ends included, is longer than the days of its order.
    TooLong,
    NoCertificate,
    /// There is no such request, or it is for another serial number.
    NoRequest,
    // `ByDeclined`: its request was declined. `OtherReason`: its reasonCode is not that of its request's ground.
    ByDeclined,
    OtherReason,
    // Its moment: `AfterLast`, after the last accepted one; `AfterEnd`, after the certificate's notAfter; `AfterRevocation`, after the revocation of
    // its serial number; `Earlier`, before that of the previous row.
    AfterLast,
    AfterEnd,
    AfterRevocation,
    Earlier,
    // A revocation has the number N of the first CRL that can list it. `NoFirst`: CRL N is neither issued nor the next one. `WrongFirst`: a CRL
    // before N has a thisUpdate after the revocation, or a CRL from N on has one before it. `EarlierFirst`: the previous row has a higher N.
    NoFirst,
    WrongFirst,
    EarlierFirst,
    ThisUpdateDecreases,
    /// A row of a derived table does not match the records, or one with a lower serial number is missing.
    DerivedMismatch,
    /// Its bytes are not those of a CRL with the entries that the records have for it (RFC 5280 5.1).
    OtherBytes,
    /// The counts in `kept` are not those of the states that the records give the certificates.
    WrongCounts,
    /// It has a value of another type or an invalid value, or a table that must have one row has none or several.
    NoValue,
}

/// A row that breaks a rule: its table, its place there, counted from 1, and why. For a missing row, the place can be the one after the last row.
#[derive(Clone, Copy)]
pub struct BrokenRow {
    pub table: RegisterTable,
    pub row: u64,
    pub why: Defect,
}
