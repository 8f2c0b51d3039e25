//! Writes bytes to a writer, and counts the accepted bytes.
ghost use Rattle.std.specs.Prelude.{◌<◌, ◌≤◌, length, take, IfOk, IfErr, OnOk, OnErr};
ghost use Rattle.std.specs.Io.KnownBytes.{Appends, Keeps};
ghost use Rattle.otel_sdk_base.specs.Writers.{FlushesNever};
ghost use Rattle.otel_otlp.specs.Written.{IsCause, IsCutAt};

use otel_sdk_base::WriterCalls;
use std::io::{self, ErrorKind};

/// Why a writer took no more bytes.
#[derive(Drop)]
pub enum Cause {
    /// A write failed with this error.
    Failed(io::Error),
    /// A write took no byte.
    TookNone,
}

/// How far a write came that didn't take all bytes.
#[derive(Drop)]
pub struct CutOff {
    /// The number of bytes that the writer took.
    pub count: usize,
    /// Why it took no more.
    pub cause: Cause,
}

// Writes some of the bytes, which aren't empty. Returns the number of bytes that the writer took,
// one or more. An interrupted write is tried again.
fn write_some<W: WriterCalls>(writer: &mut W, bytes: &[u8]) -> Result<usize, Cause>
    requires { 0 < length bytes.now }
    ensures some { IfOk result (λ count. (0 < count) × (count ≤ length bytes.now)
        × Appends (W.contents writer.old) (W.contents writer.new) (take count bytes.now)) }
    ensures none { OnErr result (Keeps (W.contents writer.old) (W.contents writer.new)) }
    ensures stuck { IfErr result (IsCause W.may_write) }
    ensures unflushed { FlushesNever W.flushed writer.old writer.new }
{
    let mut cause = Cause::TookNone;
    for _ in 0..u64::MAX {
        match writer.write_some(bytes) {
            Ok(0) => return Err(Cause::TookNone),
            Ok(count) => return Ok(count),
            Err(error) => match error.kind() {
                ErrorKind::Interrupted => cause = Cause::Failed(error),
                _ => return Err(Cause::Failed(error)),
            },
        }
    }
    Err(cause)
}

/// Writes the bytes until the writer has accepted all of them.
///
/// # Errors
///
/// The writer accepted only the first bytes, and why. An interrupted write is tried again.
pub(crate) fn write_bytes<W: WriterCalls>(writer: &mut W, bytes: &[u8]) -> Result<(), CutOff>
    ensures whole { OnOk result
        (Appends (W.contents writer.old) (W.contents writer.new) bytes.now) }
    ensures cut { IfErr result (λ cut.
        IsCutAt cut.count (W.contents writer.old) (W.contents writer.new) bytes.now) }
    ensures stuck { IfErr result (λ cut. IsCause W.may_write cut.cause) }
    ensures unflushed { FlushesNever W.flushed writer.old writer.new }
{
    let mut count = 0;
    while count < bytes.len() {
        match write_some(writer, &bytes[count..]) {
            Ok(more) => count += more,
            Err(cause) => return Err(CutOff { count, cause }),
        }
    }
    Ok(())
}
