ghost use Rattle.std.specs.Prelude.{◌≡◌, ◌↔◌, ◌≤◌, [], IfNone, IfOk, IfSome, IsTrue, length};
ghost use Rattle.reg_crl_signer.specs.SignatureRequest.{HasArrived, IsSignatureRequest, TakesSignature};
ghost use Rattle.reg_crl_signer.specs.SignerConnections.{FailedUnanswered, HasEnded, LeadsOn};

use crate::announcement::{is_announced, signature_in};
use crate::signer_connection::SignerConnection;
use mio::event::Source;
use mio::net::UnixStream;
use mio::{Interest, Registry, Token};
use reg_io::write_whole;
use std::alloc::{AllocError, Global};
use std::io;
use std::io::{ErrorKind, Write};
use std::net::Shutdown;

/// A request to the signer at a socket's path to sign a message, on a non-blocking connection. It keeps the path and the message, so that the answer
/// is used only for these. If the signer takes persistent connections, the connection can be used for a later request.
#[derive(Drop)]
pub struct SignatureRequest {
    rt: HostRuntime,
    connection: SignerConnection<UnixStream>,
    path: String,
    message: Vec<u8>,
    /// Whether the answer began with the announcement that the signer takes persistent connections.
    is_announced: bool,
    is_registered: bool,
}

impl SignatureRequest {
    /// Asks the signer at `path` to sign `message`. `kept`: an earlier request, whose connection is used if it leads to `path`, is idle and takes the
    /// message; else a new one, for this message alone. Errors: those of [`SignatureRequest::connect`] and shutdown(2); out of memory; `BrokenPipe`
    /// if sending fails or would block (a message of several hundred thousand bytes may not fit into the socket's buffer).
    pub fn send_to(
        rt: &HostRuntime,
        path: &str,
        message: &[u8],
        kept: Option<SignatureRequest>,
    ) -> io::Result<SignatureRequest>
        ensures { IfOk result (IsSignatureRequest path.now message.now) }
    {
        if let Some(request) = send_on_kept(kept, path, message) {
            return Ok(request);
        }
        let mut request = SignatureRequest::connect(rt, path)?;
        request.message.extend_from_slice(message)?;
        write_whole(&mut request.connection.stream, message).map_err(|_| io::Error::from(
            ErrorKind::BrokenPipe,
        ))?;
        request.finish()?;
        Ok(request)
    }

    /// Connects without waiting; sends nothing. Errors: `WouldBlock` if the socket's backlog is full; out of memory; the others of connect(2).
    pub fn connect(rt: &HostRuntime, path: &str) -> io::Result<SignatureRequest>
        ensures { IfOk result (IsSignatureRequest path.now []) }
    {
        let alloc = rt.alloc();
        let own_path = String::from_str(alloc, path)?;
        Ok(SignatureRequest {
            rt: *rt,
            connection: SignerConnection::for_one(alloc, UnixStream::connect(rt, path)?),
            path: own_path,
            message: Vec::new(alloc),
            is_announced: false,
            is_registered: false,
        })
    }

    /// Shuts down the sending side: the message is whole. The errors are those of shutdown(2).
    pub fn finish(&self) -> io::Result<()> {
        self.connection.stream.shutdown(Shutdown::Write)
    }

    /// Whether this request asks the signer at this path to sign this message.
    pub fn is_for(&self, path: &str, message: &[u8]) -> bool
        ensures { IsTrue result ↔ IsSignatureRequest path.now message.now self.now }
    {
        self.path.as_str() == path && self.message.as_slice() == message
    }

    /// Reads what has come, without blocking. Returns whether the request has ended: its whole answer has come, or reading it failed.
    pub fn receive(&mut self) -> bool
        ensures ended { IsTrue result ↔ HasEnded self.new.connection.progress }
        ensures leads { LeadsOn self.old.connection.progress self.new.connection.progress }
        ensures rest { self.new ≡ record self.old { connection = self.new.connection } }
    {
        self.connection.receive();
        self.connection.has_ended()
    }

    /// Whether a persistent connection failed before a byte of the answer was stored, as after a restart of the signer. A new request may succeed.
    pub fn failed_unanswered(&self) -> bool
        ensures { IsTrue result ↔ FailedUnanswered self.now.connection }
    {
        self.connection.failed_unanswered()
    }

    /// The signature in the answer; it may be empty. `Ok(None)` if the whole answer has not come.
    pub fn take_signature(&mut self, alloc: Global) -> Result<Option<Vec<u8>>, AllocError>
        ensures taken { IfOk result (λ taken. IfSome taken
            (λ signature. TakesSignature self.old self.new signature.items)) }
        ensures short { IfOk result (λ taken. IfSome taken (λ signature. length signature.items ≤ 4096)) }
        ensures none { IfOk result (λ taken. IfNone taken (¬ HasArrived self.old)) }
        ensures registered { self.new.is_registered ≡ self.old.is_registered }
        ensures announced { IsTrue self.old.is_announced → IsTrue self.new.is_announced }
    {
        let answer = match self.connection.take_answer(alloc)? {
            Some(answer) => answer,
            None => return Ok(None),
        };
        // Only an answer on a connection for one message can have the announcement. A persistent connection is idle now.
        if self.connection.is_idle() {
            return Ok(Some(answer));
        }
        if !is_announced(&answer) {
            return Ok(Some(answer));
        }
        let signature = Vec::from_slice(alloc, signature_in(&answer))?;
        self.is_announced = true;
        Ok(Some(signature))
    }

    /// After the answer was taken: whether a later request can use the connection. If the answer announced persistent connections, first opens one.
    pub fn can_be_kept(&mut self) -> bool {
        if self.is_announced {
            self.is_announced = false;
            self.is_registered = false;
            return self.reconnect().is_ok();
        }
        self.connection.is_idle()
    }

    fn reconnect(&mut self) -> io::Result<()> {
        let stream = UnixStream::connect(&self.rt, self.path.as_str())?;
        self.connection = SignerConnection::persistent(self.rt.alloc(), stream);
        Ok(())
    }

    /// Whether the connection was registered with a poller, even if it was deregistered since.
    pub fn is_registered(&self) -> bool
        ensures { result ≡ self.now.is_registered }
    {
        self.is_registered
    }
}

fn send_on_kept(
    kept: Option<SignatureRequest>,
    path: &str,
    message: &[u8],
) -> Option<SignatureRequest>
    ensures { IfSome result (IsSignatureRequest path.now message.now) }
{
    let mut request = kept?;
    if request.path.as_str() != path {
        return None;
    }
    request.message.clear();
    request.message.extend_from_slice(message).ok()?;
    let alloc = request.rt.alloc();
    match request.connection.send_next(alloc, message) {
        Ok(true) => Some(request),
        _ => None,
    }
}

/// Bytes that are sent are appended to `message`, which grows before they are sent: so none are sent if out of memory.
impl Write for SignatureRequest {
    ghost use Rattle.std.specs.Prelude.{Some};

    ghost contents = { λ it. Some it.message.items };

    fn write(&mut self, buf: &[u8]) -> io::Result<usize> {
        let before = self.message.len();
        self.message.extend_from_slice(buf)?;
        match self.connection.stream.write(buf) {
            Ok(count) => {
                self.message.truncate(before + count);
                Ok(count)
            }
            Err(error) => {
                self.message.truncate(before);
                Err(error)
            }
        }
    }

    fn flush(&mut self) -> io::Result<()> {
        Ok(())
    }
}

impl Source for SignatureRequest {
    fn register(
        &mut self,
        registry: &Registry,
        token: Token,
        interests: Interest,
    ) -> io::Result<()> {
        self.connection.stream.register(registry, token, interests)?;
        self.is_registered = true;
        Ok(())
    }

    fn reregister(
        &mut self,
        registry: &Registry,
        token: Token,
        interests: Interest,
    ) -> io::Result<()> {
        self.connection
            .stream
            .reregister(registry, token, interests)
    }

    fn deregister(&mut self, registry: &Registry) -> io::Result<()> {
        self.connection.stream.deregister(registry)
    }
}
