//! Collects the bytes of a connection until they hold a whole request.

ghost use Rattle.std.specs.Prelude.{◌≡◌, ◌≤◌, length, IfErr, IfOk};
ghost use Rattle.reg_http_head.specs.Collected.{HoldsRequest, Knows, NeedsBytes};
ghost use Rattle.reg_http_head.specs.Frame.{request_ref_meaning};

use crate::request::RequestRef;
use crate::scan_state::{HeadState, ScanState, scan_all};
use reg_core::Fault;
use std::alloc::{AllocError, Global};

/// The bytes that came on a connection, in pieces. `known` is what [`Collected::is_whole`] found so far.
#[derive(Drop)]
pub struct Collected {
    bytes: Vec<u8>,
    known: ScanState,
    ghost is_known: { ∥ Knows bytes.items known ∥₁ },
}

impl Collected {
    ghost use Rattle.std.specs.Prelude.{◌≡◌, ◌⊎◌, ◌+◌, ◌<◌, ◌≤◌, ◌++◌, [], length, true, false, vec_capacity, IfErr, IfOk, OnOk, OnErr};
    ghost use Rattle.reg_http_head.specs.Bytes.{collected_bytes, IsExact};
    ghost use Rattle.reg_http_head.specs.Collected.{HoldsRequest, IsWholeRequest};
    ghost use Rattle.reg_http_head.specs.Frame.{IsUnfinished, request_ref_meaning};

    pub fn new(alloc: Global) -> Collected
        ensures { collected_bytes result ≡ [] }
    {
        Collected {
            bytes: Vec::new(alloc),
            known: ScanState::NoHeadEnd(0),
        }
    }

    pub fn as_slice(&self) -> &[u8]
        ensures { result.now ≡ collected_bytes self.now }
    {
        self.bytes.as_slice()
    }

    /// Appends bytes. [`AllocError`] if out of memory; none is then appended.
    pub fn add(&mut self, more: &[u8]) -> Result<(), AllocError>
        ensures ok { OnOk result (collected_bytes self.new ≡ collected_bytes self.old ++ more.now) }
        ensures err { OnErr result (collected_bytes self.new ≡ collected_bytes self.old) }
        ensures full { OnErr result
            (vec_capacity self.old.bytes < length (collected_bytes self.old) + length more.now) }
        ensures room { vec_capacity self.old.bytes ≤ vec_capacity self.new.bytes }
    {
        self.bytes.extend_from_slice(more)
    }

    /// Whether the bytes begin with a whole request (RFC 9112 2.1): a head and all of its body (`needed` bytes in all), or a head that is refused.
    pub fn is_whole(&mut self) -> bool
        ensures same { collected_bytes self.new ≡ collected_bytes self.old }
        ensures whole { result ≡ true → ∥ IsWholeRequest (collected_bytes self.old) ∥₁ }
        ensures unfinished { result ≡ false → ∥ IsUnfinished (collected_bytes self.old) ∥₁ }
    {
        self.known = scan_all(self.bytes.as_slice(), self.known);
        match self.known {
            ScanState::NoHeadEnd(_) => false,
            ScanState::Refused(..) => true,
            ScanState::Valid(head) => head.needed <= self.bytes.len(),
        }
    }

    /// Whether the bytes are one whole request that is not refused, and nothing more. `false` also before [`Collected::is_whole`] has read the head.
    pub fn is_exact(&self) -> bool
        ensures { result ≡ true → ∥ IsExact (collected_bytes self.now) ∥₁ }
    {
        match self.known {
            ScanState::Valid(head) => head.needed == self.bytes.len(),
            _ => false,
        }
    }

    /// The request at the start of the bytes, with slices of them. [`Fault::Read`] if it isn't whole, [`Fault::Memory`] if out of memory.
    pub fn request(&self, alloc: Global) -> Result<RequestRef<'_>, Fault>
        ensures ok { IfOk result (λ request.
            ∥ HoldsRequest (collected_bytes self.now) (request_ref_meaning request) ∥₁) }
        ensures err { IfErr result (λ fault.
            ((fault ≡ Fault.Read) × ∥ IsUnfinished (collected_bytes self.now) ∥₁) ⊎ (fault ≡ Fault.Memory)) }
    {
        let bytes = self.bytes.as_slice();
        match scan_all(bytes, self.known) {
            ScanState::NoHeadEnd(_) => Err(Fault::Read),
            ScanState::Refused(_, status) => Ok(RequestRef::Refused(status)),
            ScanState::Valid(head) if head.needed <= bytes.len() => request_at(alloc, bytes, head),
            ScanState::Valid(_) => Err(Fault::Read),
        }
    }
}

/// The request at the start of the bytes. `head` has the positions of its method and target, and where its head and body end.
fn request_at(alloc: Global, bytes: &[u8], head: HeadState) -> Result<RequestRef<'_>, Fault>
    requires head { ∥ NeedsBytes bytes.now head ∥₁ }
    requires ordered { head.end ≤ head.needed }
    requires whole { head.needed ≤ length bytes.now }
    ensures ok { IfOk result (λ request. ∥ HoldsRequest bytes.now (request_ref_meaning request) ∥₁) }
    ensures err { IfErr result (λ fault. fault ≡ Fault.Memory) }
{
    let head_bytes = &bytes[..head.end];
    match head.spans.method_in(alloc, head_bytes) {
        Ok(method) => Ok(RequestRef::Valid {
            method,
            target: head.spans.target_in(head_bytes),
            body: &bytes[head.end..head.needed],
        }),
        Err(_) => Err(Fault::Memory),
    }
}
