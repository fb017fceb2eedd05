ghost use Rattle.std.specs.Prelude.{OnErr, OnOk};
ghost use Rattle.std.specs.Io.KnownBytes.{Appends};
ghost use Rattle.reg_io.specs.Put.{AppendsPrefix};

use crate::streams::Sink;

/// The writer failed, or took 0 bytes of a slice that is not empty.
#[derive(Clone, Copy, PartialEq, Eq)]
pub struct WriteFault;

/// Writes all of the bytes, in as many writes as the writer needs. [`WriteFault`] at the first write that fails, even if only a signal interrupted
/// it, or that takes 0 bytes: then the bytes that earlier writes took are written, and no others.
pub fn write_whole<W: Sink>(writer: &mut W, bytes: &[u8]) -> Result<(), WriteFault>
    ensures ok { OnOk result (Appends (W.contents writer.old) (W.contents writer.new) bytes.now) }
    ensures err { OnErr result
        (AppendsPrefix (W.contents writer.old) (W.contents writer.new) bytes.now) }
    ensures fails { OnErr result W.failed }
{
    let mut written: usize = 0;
    while written < bytes.len() {
        match writer.write_once(&bytes[written..]) {
            Ok(0) | Err(_) => return Err(WriteFault),
            Ok(count) => written += count,
        }
    }
    Ok(())
}
