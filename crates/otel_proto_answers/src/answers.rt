//! The messages that a collector answers with.
ghost use Rattle.std.specs.Prelude.{◌≡◌, ◌<◌, length, IfOk, OnErr, IsSome, Some, None, option_map};
ghost use Rattle.std.specs.Prelude.{string_bytes, alloc_error, IsErrOf};
ghost use Rattle.std.specs.Option.{IsSomeAnd};
ghost use Rattle.otel_proto_answers.specs.Answers.{response, status, unless_empty};
ghost use Rattle.otel_proto_answers.specs.Views.{partial_of, status_of};

use crate::error::ReadError;
use crate::scalars::{read_partial_success, read_scalars};
use std::alloc::{AllocError, Global};

/// How many items a collector has rejected of a request that it has taken, and its message (OTLP,
/// `ExportTracePartialSuccess` and `ExportLogsPartialSuccess`).
#[derive(Debug, Drop)]
pub struct Partial {
    /// The number of rejected items (`rejected_spans`, `rejected_log_records`). It is negative only
    /// if the collector sent a negative one.
    pub rejected: i64,
    /// The message (`error_message`), unless it is empty.
    pub message: Option<String>,
}

/// The reason why a collector hasn't taken a request (`google.rpc.Status`, without its details).
#[derive(Debug, Drop)]
pub struct Status {
    /// The code, one of `google.rpc.Code`.
    pub code: i32,
    /// The message, unless it is empty.
    pub message: Option<String>,
}

/// Returns a copy of the message, unless it is empty.
fn message_of(alloc: Global, string: &str) -> Result<Option<String>, AllocError>
    ensures ok { IfOk result (λ copy. option_map string_bytes copy ≡ unless_empty string.now) }
    ensures err { OnErr result (0 < length string.now) }
{
    if string.is_empty() {
        return Ok(None);
    }
    Ok(Some(String::from_str(alloc, string)?))
}

/// Reads an `ExportTraceServiceResponse` or an `ExportLogsServiceResponse`.
///
/// Fields with other numbers or wire types are skipped, and so are groups, of which 100 may be within
/// each other. The last number and the last message win, also across partial successes. Without a
/// number, nothing is rejected.
///
/// # Errors
///
/// `Malformed` if the bytes are no such message, and `Memory` if out of memory. Only the message
/// takes memory.
pub fn read_partial(alloc: Global, body: &[u8]) -> Result<Partial, ReadError>
    ensures ok { IfOk result (λ partial. response body.now ≡ Some (partial_of partial)) }
    ensures malformed { IsErrOf result ReadError.Malformed → response body.now ≡ None }
    ensures memory { IsErrOf result (ReadError.Memory alloc_error)
        → IsSomeAnd (response body.now) (λ partial. IsSome partial.message) }
{
    match read_partial_success(body) {
        Some(scalars) => {
            let message = message_of(alloc, scalars.string)?;
            let rejected = scalars.integer.cast_signed();
            Ok(Partial { rejected, message })
        }
        None => Err(ReadError::Malformed),
    }
}

/// Reads a `google.rpc.Status`.
///
/// Fields with other numbers or wire types are skipped, and so are groups, of which 100 may be within
/// each other. The last code and the last message win.
///
/// # Errors
///
/// `Malformed` if the bytes are no such message, and `Memory` if out of memory. Only the message
/// takes memory.
pub fn read_status(alloc: Global, body: &[u8]) -> Result<Status, ReadError>
    ensures ok { IfOk result (λ answer. status body.now ≡ Some (status_of answer)) }
    ensures malformed { IsErrOf result ReadError.Malformed → status body.now ≡ None }
    ensures memory { IsErrOf result (ReadError.Memory alloc_error)
        → IsSomeAnd (status body.now) (λ answer. IsSome answer.message) }
{
    match read_scalars(body) {
        Some(scalars) => {
            let message = message_of(alloc, scalars.string)?;
            let code = (scalars.integer % (1 << 32)) as u32;
            let code = code.cast_signed();
            Ok(Status { code, message })
        }
        None => Err(ReadError::Malformed),
    }
}
