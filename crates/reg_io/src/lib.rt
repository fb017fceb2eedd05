//! Reads and writes over any reader and writer: whole writes, and reads into a buffer up to a delimiter, to the buffer's end or to the reader's.
#![tactic(auto)]

mod begun;
mod fill;
pub mod laws;
mod put;
mod streams;

pub use begun::ReadyOrUnsigned;
pub use fill::{FillEnd, ReadFault, fill_exact, fill_to_delimiter, fill_to_end, first_delimiter};
pub use put::{WriteFault, write_whole};
pub use streams::{Sink, Source};
