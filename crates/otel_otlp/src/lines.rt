//! Writes lines to a writer. Each line is complete, or a fragment on a line by itself.
ghost use Rattle.std.specs.Prelude.{◌≡◌, ◌++◌, ◌∷◌, ℕ, List, [], false};
ghost use Rattle.std.specs.Prelude.{IsTrue, IsOk, OnOk, OnErr, IfErr, IsErrOf, alloc_error, ◌↔◌};
ghost use Rattle.std.specs.Prelude.{codes, string_bytes};
ghost use Rattle.otel_sdk_base.specs.Writers.{FlushesNever, IsWritersError};
ghost use Rattle.otel_otlp.specs.Exporter.{Writes, Flushes, IsFlushed, IsCutOff};
ghost use Rattle.otel_otlp.specs.Exporter.{Says, Tells, SaysOfLine};
ghost use Rattle.otel_otlp.specs.Written.{IsCause};

use crate::written::{Cause, write_bytes};
use otel_sdk_base::WriterCalls;
use otel_sdk_base::error::{OTelSdkError, OTelSdkResult};
use std::alloc::Global;

// Returns the failure with the message, which is empty if out of memory.
fn failure(alloc: Global, message: &str) -> OTelSdkError
    ensures { Says message.now result }
{
    match String::from_str(alloc, message) {
        Ok(message) => OTelSdkError::InternalFailure(message),
        Err(_) => OTelSdkError::InternalFailure(String::new(alloc)),
    }
}

// Returns `Ok` if the writer was flushed, and otherwise that it failed.
fn flush_result(alloc: Global, flushed: bool) -> OTelSdkResult
    ensures same { IsOk result ↔ IsTrue flushed }
    ensures failure { IfErr result (Says (codes "the writer wasn't flushed")) }
{
    if flushed {
        return Ok(());
    }
    Err(failure(alloc, "the writer wasn't flushed"))
}

/// A writer of lines, and whether the newline of the last line is pending.
#[derive(Drop)]
pub struct Lines<W> {
    /// The writer.
    pub writer: W,
    /// Whether the newline of the last line is still to be written.
    pub newline_is_pending: bool,
}

impl<W: WriterCalls> Lines<W> {
    // Returns the writer's own error, or the message if it took no byte.
    fn error_of(alloc: Global, cause: Cause, message: &str) -> OTelSdkError
        requires { IsCause W.may_write cause }
        ensures failed { IsWritersError W.may_write result }
        ensures told { Tells W.may_write message.now result }
    {
        match cause {
            Cause::Failed(error) => OTelSdkError::Io(error),
            Cause::TookNone => failure(alloc, message),
        }
    }

    // Writes the pending newline, if there is one. After `Ok` none is pending.
    fn write_pending_newline(&mut self) -> Result<(), Cause>
        ensures written { OnOk result (self.new.newline_is_pending ≡ false) }
        ensures stuck { IfErr result (IsCause W.may_write) }
        ensures writes { Writes W.contents self.old self.new [] }
        ensures unflushed { FlushesNever W.flushed self.old.writer self.new.writer }
    {
        if !self.newline_is_pending {
            return Ok(());
        }
        match write_bytes(&mut self.writer, b"\n") {
            Ok(()) => {
                self.newline_is_pending = false;
                Ok(())
            }
            Err(cut) => Err(cut.cause),
        }
    }

    // Writes the line: in one call, if the writer takes all of it. Returns `Ok` if the writer
    // accepted every byte before its newline. A newline is pending from the first accepted byte
    // to the last.
    fn write_object(&mut self, line: &str) -> Result<(), Cause>
        requires { self.old.newline_is_pending ≡ false }
        ensures whole { OnOk result ((text : List ℕ) → line.now ≡ text ++ 10 ∷ []
            → Writes W.contents self.old self.new line.now) }
        ensures cut { OnErr result ((text : List ℕ) → line.now ≡ text ++ 10 ∷ []
            → (cut : List ℕ) × IsCutOff text cut × Writes W.contents self.old self.new cut) }
        ensures stuck { IfErr result (IsCause W.may_write) }
        ensures unflushed { FlushesNever W.flushed self.old.writer self.new.writer }
    {
        match write_bytes(&mut self.writer, line.as_bytes()) {
            Ok(()) => Ok(()),
            Err(cut) => {
                self.newline_is_pending = cut.count > 0;
                if cut.count > 0 && line.len() - cut.count == 1 {
                    return Ok(());
                }
                Err(cut.cause)
            }
        }
    }

    // Writes the pending newline, if there is one, and then the line, as `write_object`.
    fn write_after_newline(&mut self, line: &str) -> Result<(), Cause>
        ensures whole { OnOk result ((text : List ℕ) → line.now ≡ text ++ 10 ∷ []
            → Writes W.contents self.old self.new line.now) }
        ensures cut { OnErr result ((text : List ℕ) → line.now ≡ text ++ 10 ∷ []
            → (cut : List ℕ) × IsCutOff text cut × Writes W.contents self.old self.new cut) }
        ensures stuck { IfErr result (IsCause W.may_write) }
        ensures unflushed { FlushesNever W.flushed self.old.writer self.new.writer }
    {
        match self.write_pending_newline() {
            Ok(()) => self.write_object(line),
            Err(cause) => Err(cause),
        }
    }

    /// Writes the pending newline, if there is one, and then the text as a line. The line is
    /// written in one call, if the writer takes all of it.
    ///
    /// # Errors
    ///
    /// - `Memory` if out of memory. Nothing is written.
    /// - `Io` with the error of the write if one failed before every byte of the text was accepted,
    ///   and `InternalFailure` if the writer accepted no byte. The accepted bytes remain as a
    ///   truncated line.
    pub(crate) fn write_line(&mut self, alloc: Global, mut text: String) -> OTelSdkResult
        ensures ok { OnOk result
            (Writes W.contents self.old self.new (string_bytes text ++ 10 ∷ [])) }
        ensures err { OnErr result ((line : List ℕ) × IsCutOff (string_bytes text) line
            × Writes W.contents self.old self.new line) }
        ensures memory { IsErrOf result (OTelSdkError.Memory alloc_error)
            → self.new ≡ self.old }
        ensures open { IsErrOf result OTelSdkError.AlreadyShutdown → ⊥ }
        ensures failed { IfErr result (IsWritersError W.may_write) }
        ensures says { IfErr result (SaysOfLine W.may_write) }
        ensures unflushed { FlushesNever W.flushed self.old.writer self.new.writer }
    {
        text.push('\n')?;
        match self.write_after_newline(text.as_str()) {
            Ok(()) => Ok(()),
            Err(cause) => Err(Lines::<W>::error_of(
                alloc,
                cause,
                "the writer didn't take the line",
            )),
        }
    }

    /// Writes the pending newline, if there is one, and flushes the writer.
    ///
    /// # Errors
    ///
    /// - `Io` with the error of the write if the one of the newline failed.
    /// - `InternalFailure` if the writer didn't accept the newline, or wasn't flushed.
    pub(crate) fn flush(&mut self, alloc: Global) -> OTelSdkResult
        ensures flushes { Flushes W.contents result self.old self.new }
        ensures answered { IsFlushed W.may_write W.flushed result self.old self.new }
    {
        match self.write_pending_newline() {
            Ok(()) => flush_result(alloc, self.writer.flush_all()),
            Err(cause) => Err(Lines::<W>::error_of(
                alloc,
                cause,
                "the writer didn't take the newline",
            )),
        }
    }
}
