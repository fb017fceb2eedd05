//! Whether a request for changes has to wait: the last page ended the changes feed with the positions that it asks for, and nothing came since.

ghost use Rattle.std.specs.Prelude.{◌≡◌, []};
ghost use Rattle.reg_desk_server.specs.LineEnds.{IsWholeLines};
ghost use Rattle.reg_desk_service.specs.FeedEnds.{ForgetsAfter, asks_after, waits_for_changes, waits_in};

use crate::confirmation::first_space;
use crate::line_kinds::{first_line, may_be_command};
use crate::unsigned_responses::Unsigned;
use reg_io::ReadyOrUnsigned;
use std::alloc::Global;

/// The beginning of a request for changes, up to its positions.
const ASKED: &[u8] = b"GET /changes?after=";

/// The beginning of a request that may add a row.
const ADDS: &[u8] = b"POST /requests";

/// The last parameter of a request that waits while there is no news.
const WAITS: &[u8] = b"&wait=1";

/// The positions after which the changes feed has nothing, as text: those of the last page that ended it. None once a command, or a request that may
/// add a row, was answered since.
#[derive(Drop)]
pub struct FeedEnd {
    positions: Vec<u8>,
}

impl FeedEnd {
    /// No page is known that ended the feed.
    pub fn unknown(alloc: Global) -> FeedEnd
        ensures { result.positions.items ≡ [] }
    {
        FeedEnd {
            positions: Vec::new(alloc),
        }
    }

    fn forget(&mut self)
        ensures { self.new.positions.items ≡ [] }
    {
        self.positions.clear();
    }

    /// The first of these lines was answered, or the first several, which are then commands. After a command there may be news.
    pub(crate) fn first_lines_answered(&mut self, alloc: Global, lines: &[u8])
        requires { IsWholeLines lines.now }
        ensures { ForgetsAfter lines.now self.old self.new }
    {
        if self.positions.is_empty() {
            return;
        }
        if may_be_command(alloc, first_line(lines)) {
            self.forget();
        }
    }

    /// An HTTP request was answered, or the response to it is to be signed.
    pub(crate) fn request_begun(
        &mut self,
        request: &[u8],
        begun: &ReadyOrUnsigned<Vec<u8>, Unsigned>,
    ) {
        match begun {
            ReadyOrUnsigned::Ready(text) => self.request_answered(request, text),
            ReadyOrUnsigned::Unsigned(_) => {}
        }
    }

    fn request_answered(&mut self, request: &[u8], response: &[u8]) {
        if request.starts_with(ASKED) {
            self.keep(end_in(response));
        } else if request.starts_with(ADDS) {
            self.forget();
        }
    }

    fn keep(&mut self, end: Option<&[u8]>) {
        self.positions.clear();
        if let Some(positions) = end {
            // Out of memory: the end stays unknown.
            let _ = self.positions.extend_from_slice(positions);
        }
    }

    /// Whether a request waits: it asks for the changes after these positions, and its last parameter is `wait=1`.
    pub(crate) fn holds(&self, request: &[u8]) -> bool
        ensures { result ≡ waits_for_changes self.now.positions.items request.now }
    {
        let positions = self.positions.as_slice();
        if positions.is_empty() || !request.starts_with(ASKED) {
            return false;
        }
        asks_after(positions, &request[ASKED.len()..])
    }
}

fn asks_after(positions: &[u8], rest: &[u8]) -> bool
    ensures { result ≡ asks_after positions.now rest.now }
{
    rest.starts_with(positions) && waits_in(&rest[positions.len()..])
}

/// Whether the last parameter in this rest of a request, up to the first space, lets it wait.
fn waits_in(parameters: &[u8]) -> bool
    ensures { result ≡ waits_in parameters.now }
{
    match first_space(parameters) {
        Some(end) => parameters.starts_with(b"&") && parameters[..end].ends_with(WAITS),
        None => false,
    }
}

/// The positions in the last line of a response, if that is `end` and positions.
fn end_in(response: &[u8]) -> Option<&[u8]> {
    let text = response.strip_suffix(b"\n")?;
    let line = text.rsplit(|byte| *byte == b'\n').next()?;
    line.strip_prefix(b"end ")
}
