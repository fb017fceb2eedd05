use crate::broken_row::BrokenRow;

/// The result of an audit that found no row that breaks a rule: how many certificates, revocations and CRLs the register has.
#[derive(Clone, Copy)]
pub struct Audited {
    pub certificates: usize,
    pub revoked: usize,
    pub crls: usize,
}

/// The result of an audit of a register: no row breaks a rule (`Sound`), or one does (`Broken`), or most rows were not checked.
#[derive(Clone, Copy)]
pub enum AuditResult {
    Sound(Audited),
    Broken(BrokenRow),
    /// The register is of version 1 or 2: only its row of the table `office` is checked.
    Older,
    /// The version is the program's, 3, but the schema is not exactly a register's: only `office` and the schedule are checked.
    OtherSchema,
}
