/// Out of memory: the error of calls that can fail in no other way.
#[derive(Clone, Copy, PartialEq, Eq)]
pub struct Memory;
