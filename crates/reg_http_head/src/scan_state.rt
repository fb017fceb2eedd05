//! What is known about the bytes that came on a connection. `Collected` keeps it, so that the search for the head's end begins where it stopped.

ghost use Rattle.reg_http_head.specs.Frame.{HasHead};
ghost use Rattle.reg_http_head.specs.Collected.{HasNoHeadEnd, Knows, IsAllKnown};

use crate::head::{HeadSpans, read_head};
use crate::request::{HEAD_END, LONGEST_HEAD};
use crate::status;
use reg_io::first_delimiter;

#[derive(Clone, Copy)]
pub(crate) enum ScanState {
    /// No head ends within this many first bytes.
    NoHeadEnd(usize),
    /// The length of a refused head, and the status code. A head without an end in its first 8,192 bytes counts as that long (431).
    Refused(usize, u16),
    Valid(HeadState),
}

/// A head at the start of the bytes. It ends at the index `end`; its body of `spans.size` bytes ends at `needed`, the length of the whole request.
#[derive(Clone, Copy)]
pub(crate) struct HeadState {
    pub(crate) spans: HeadSpans,
    pub(crate) end: usize,
    pub(crate) needed: usize,
}

/// `known` itself, if it has a head. Else searches for the end of the head, from where the last search (`known`) stopped, and reads the head.
pub(crate) fn scan_all(bytes: &[u8], known: ScanState) -> ScanState
    requires { ∥ Knows bytes.now known ∥₁ }
    ensures { ∥ IsAllKnown bytes.now result ∥₁ }
{
    match known {
        ScanState::NoHeadEnd(searched) => search_rest(bytes, searched),
        ScanState::Refused(count, status) => ScanState::Refused(count, status),
        ScanState::Valid(head) => ScanState::Valid(head),
    }
}

fn search_rest(bytes: &[u8], searched: usize) -> ScanState
    requires { HasNoHeadEnd bytes.now searched }
    ensures { IsAllKnown bytes.now result }
{
    let limit = bytes.len().min(LONGEST_HEAD);
    match first_delimiter(bytes, limit, HEAD_END, searched) {
        Some(end) => read_to(bytes, end),
        None if limit == LONGEST_HEAD => ScanState::Refused(
            LONGEST_HEAD,
            status::HEADERS_TOO_LARGE,
        ),
        None => ScanState::NoHeadEnd(limit),
    }
}

fn read_to(bytes: &[u8], end: usize) -> ScanState
    requires { HasHead bytes.now end }
    ensures { IsAllKnown bytes.now result }
{
    match read_head(&bytes[..end]) {
        Ok(spans) => ScanState::Valid(HeadState {
            spans,
            end,
            needed: end + spans.size as usize,
        }),
        Err(refused) => ScanState::Refused(end, refused),
    }
}
