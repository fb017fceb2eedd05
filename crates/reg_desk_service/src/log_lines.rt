//! The lines of the log: one for each exchange (an HTTP request or control line, and its answer), and one for each fault that the event loop reports.

ghost use Rattle.std.specs.Prelude.{◌≡◌, ◌++◌, ◌∷◌, ◌<◌, ◌≤◌, [], IfOk, IfSome, OnOk, decimal, length, take};
ghost use Rattle.std.specs.List.{flat_map, position};
ghost use Rattle.reg_desk_service.specs.Log.{digit as hexadecimal, is_plain as plain, ends_line, first_line as first_line_of, quoted_text, quoted_byte, exchange_line as exchanged, lost_line as lost, named_end, unsigned_end};

use reg_core::{Decimal, Moment};
use reg_http::LoggedRevocationRequest;
use std::alloc::{AllocError, Global};

/// The most bytes, before escaping, that the log quotes of a request or a reply. So a line stays below 4,096 bytes, which a pipe takes in one piece.
pub const MOST_QUOTED: usize = 256;

/// The line of an exchange, without its LF: the moment; the client (`client_text`, its address and port, or `control`); the first line of the
/// request; that of the reply; the reply's length in bytes; how long the exchange took (`micros`). Both first lines are quoted and escaped: no
/// control character and no byte outside ASCII gets into the log, so no client can forge a line. If a request for revocation was entered or decided
/// (`named`), its number and serial number follow, and if it was entered its ground (reason). If a signature failed, the last word is `signer`.
pub(crate) fn exchange_line(
    alloc: Global,
    now: Moment,
    client_text: &[u8],
    request: &[u8],
    reply: &[u8],
    micros: u64,
    named: Option<LoggedRevocationRequest>,
    signature_failed: bool,
) -> Result<Vec<u8>, AllocError>
    ensures { IfOk result (λ line.
        line.items ≡ exchanged now client_text.now request.now reply.now micros named signature_failed) }
{
    let mut line = Vec::from_slice(alloc, &now.text())?;
    put_word(&mut line, client_text)?;
    put_quoted(&mut line, request)?;
    put_quoted(&mut line, reply)?;
    put_number(&mut line, reply.len() as u64)?;
    put_number(&mut line, micros)?;
    put_named(&mut line, named)?;
    put_signature_failure(&mut line, signature_failed)?;
    Ok(line)
}

/// The line of a fault (`why`) of a connection, without its LF.
pub(crate) fn lost_line(
    alloc: Global,
    now: Moment,
    client_text: &[u8],
    why: &[u8],
) -> Result<Vec<u8>, AllocError>
    ensures { IfOk result (λ line. line.items ≡ lost now client_text.now why.now) }
{
    let mut line = Vec::from_slice(alloc, &now.text())?;
    put_word(&mut line, client_text)?;
    line.extend_from_slice(b" lost ")?;
    line.extend_from_slice(why)?;
    Ok(line)
}

/// Appends a space and a word. Fails without memory; then a part may have been appended.
pub fn put_word(line: &mut Vec<u8>, word: &[u8]) -> Result<(), AllocError>
    ensures { OnOk result (line.new.items ≡ line.old.items ++ (32 ∷ word.now)) }
{
    line.push(b' ')?;
    line.extend_from_slice(word)
}

/// Appends a space and a number in decimal. Fails as [`put_word`] does.
pub fn put_number(line: &mut Vec<u8>, number: u64) -> Result<(), AllocError>
    ensures { OnOk result (line.new.items ≡ line.old.items ++ (32 ∷ decimal number)) }
{
    let digits = Decimal::of(number);
    put_word(line, digits.as_bytes())
}

fn put_named(line: &mut Vec<u8>, named: Option<LoggedRevocationRequest>) -> Result<(), AllocError>
    ensures { OnOk result (line.new.items ≡ line.old.items ++ named_end named) }
{
    let Some(named) = named else {
        return Ok(());
    };
    line.extend_from_slice(b" request")?;
    put_number(line, named.id)?;
    put_word(line, &named.serial.text())?;
    match named.ground {
        Some(ground) => put_word(line, ground.as_bytes()),
        None => Ok(()),
    }
}

fn put_signature_failure(line: &mut Vec<u8>, signature_failed: bool) -> Result<(), AllocError>
    ensures { OnOk result (line.new.items ≡ line.old.items ++ unsigned_end signature_failed) }
{
    if !signature_failed {
        return Ok(());
    }
    line.extend_from_slice(b" signer")
}

fn put_quoted(line: &mut Vec<u8>, text: &[u8]) -> Result<(), AllocError>
    ensures { OnOk result (line.new.items ≡ line.old.items ++ (32 ∷ quoted_text text.now)) }
{
    line.extend_from_slice(b" \"")?;
    put_escaped(line, first_bytes(first_line(text)))?;
    line.push(b'"')?;
    Ok(())
}

fn first_line(text: &[u8]) -> &[u8]
    ensures { result.now ≡ first_line_of text.now }
{
    match line_end(text) {
        Some(end) => &text[..end],
        None => text,
    }
}

fn line_end(text: &[u8]) -> Option<usize>
    ensures place { result ≡ position ends_line text.now }
    ensures within { IfSome result (λ end. end ≤ length text.now) }
{
    text.iter()
        .position(|byte| *byte == b'\r' || *byte == b'\n')
}

fn first_bytes(text: &[u8]) -> &[u8]
    ensures { result.now ≡ take 256 text.now }
{
    if text.len() > MOST_QUOTED {
        &text[..MOST_QUOTED]
    } else {
        text
    }
}

fn put_escaped(line: &mut Vec<u8>, text: &[u8]) -> Result<(), AllocError>
    ensures { OnOk result (line.new.items ≡ line.old.items ++ flat_map quoted_byte text.now) }
{
    for byte in text {
        put_byte(line, *byte)?;
    }
    Ok(())
}

#[tactic(auto, unfolding(crate::specs::Log::quoted_byte))]
fn put_byte(line: &mut Vec<u8>, byte: u8) -> Result<(), AllocError>
    ensures { OnOk result (line.new.items ≡ line.old.items ++ quoted_byte byte) }
{
    if is_plain(byte) {
        line.push(byte)?;
        return Ok(());
    }
    let escape = [b'\\', b'x', digit(byte / 16), digit(byte % 16)];
    line.extend_from_slice(&escape)
}

fn is_plain(byte: u8) -> bool
    ensures { result ≡ plain byte }
{
    byte != b'"' && byte != b'\\' && byte >= b' ' && byte < 127
}

fn digit(number: u8) -> u8
    requires { number < 16 }
    ensures { result ≡ hexadecimal number }
{
    if number < 10 {
        b'0' + number
    } else {
        b'a' - 10 + number
    }
}
