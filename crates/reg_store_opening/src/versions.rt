/// A version of a register's tables and indexes.
#[derive(Clone, Copy, PartialEq, Eq)]
pub enum Version {
    /// Version 1: only the table `office` (issuer, policy, last accepted moment) and those of the other records.
    First,
    /// Version 2: also the tables derived from these (certificates' state letters, counts of them, entries of CRLs).
    Second,
    /// Version 3, the program's: also the table of the schedule of longest validities (`longest`) and two indexes.
    Third,
}
