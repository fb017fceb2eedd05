/// A version of a register's tables before version 3, the program's.
#[derive(Clone, Copy, PartialEq, Eq)]
pub enum OlderVersion {
    /// Version 1: only the table `office` (issuer, policy, last accepted moment) and those of the other records.
    First,
    /// Version 2: also the tables derived from these (state letters of certificates, the counts of these letters, entries of CRLs).
    Second,
}
