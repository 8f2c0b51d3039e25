//! An exporter that writes a line of JSON for each batch of spans or of log records.
ghost use Rattle.std.specs.Prelude.{◌≡◌, ℕ, List, [], ◌∷◌, ◌++◌, true, false};
ghost use Rattle.std.specs.Prelude.{IsTrue, IsOk, IfOk, IfErr, OnOk, OnErr, IsErrOf, alloc_error};
ghost use Rattle.std.specs.Rc.{rc_value};
ghost use Rattle.otel_sdk_base.specs.Writers.{FlushesNever, IsWritersError};
ghost use Rattle.otel_otlp.specs.Exporter.{initial, with_pending_newline, Writes};
ghost use Rattle.otel_otlp.specs.Exporter.{IsLineOf, IsCutOffLineOf, SaysOfLine};
ghost use Rattle.otel_otlp.specs.Exporter.{RefusesIfShutDown, ForceFlushes, ShutsDown};

use crate::groups::{Grouped, batch_text};
use crate::lines::Lines;
use otel_sdk_base::error::{OTelSdkError, OTelSdkResult};
use otel_sdk_base::resource::Resource;
use otel_sdk_base::{Accepted, Exporter, Losses, WriterCalls};
use otel_sdk_logs::LogData;
use otel_sdk_span::SpanData;
use std::alloc::{AllocError, Global};
use std::default::Default;
use std::io::Write;
use std::marker::Model;
use std::rc::Rc;

/// Writes each batch as a line of JSON, in the form of the OpenTelemetry protocol's file exporter:
/// for a file that a collector reads, or for a program's output.
///
/// ```
/// let mut exporter = OtlpJsonSpanExporter::new(alloc, writer)?;
/// exporter.set_resource(resource);
/// exporter.export(batch)?;
/// ```
///
/// A line is built in memory, with its newline, and then handed to the writer, which should have no
/// buffer: in one call, unless the writer takes only a part of it. The batch
/// is accepted if and only if the writer accepted every byte of its object. If a line was cut off,
/// its missing newline is written before the next line, on flush and on shutdown, so the fragment
/// is a line by itself, and no item can be read twice.
///
/// Contracts see the batches that it has accepted, the writer, whether a newline is pending, the
/// resource of later items, and whether it was shut down.
pub struct OtlpJsonExporter<W, R> {
    lines: Lines<W>,
    alloc: Global,
    resource: Rc<Resource>,
    is_shut_down: bool,
    accepted: Accepted<R>,
}

// Written out, so that a caller's proof has one call here, and not the drops of all parts.
impl<W: Drop, R> Drop for OtlpJsonExporter<W, R> {
    fn drop(self) {
        let OtlpJsonExporter {
            lines: _,
            alloc: _,
            resource: _,
            is_shut_down: _,
            accepted: _,
        } = self;
    }
}

/// Writes each batch of spans as a line of JSON.
pub type OtlpJsonSpanExporter<W> = OtlpJsonExporter<W, SpanData>;

/// Writes each batch of log records as a line of JSON.
///
/// In a record's body and attributes, each list or map inside 29 others is cut: the text `..` is
/// written in its place, and it adds 1 to the record's count of dropped attributes.
pub type OtlpJsonLogExporter<W> = OtlpJsonExporter<W, LogData>;

impl<W, R> Model for OtlpJsonExporter<W, R> {
    ghost use Rattle.std.specs.Rc.{rc_value};
    ghost use Rattle.otel_otlp.specs.Exporter.{Exporting};

    ghost Value = { Exporting W R };

    ghost view = { λ e. record {
      accepted = e.accepted.batches;
      lines = e.lines;
      resource = rc_value e.resource;
      is_shut_down = e.is_shut_down;
    } };
}

// Writes the line of the batch, if it has items.
fn write_batch<W: WriterCalls, R: Grouped>(
    lines: &mut Lines<W>,
    alloc: Global,
    resource: &Resource,
    batch: &[R],
) -> OTelSdkResult
    ensures line { OnOk result ((line : List ℕ)
        × IsLineOf R.form resource.now batch.now line
        × Writes W.contents lines.old lines.new line) }
    ensures cut { OnErr result ((line : List ℕ)
        × IsCutOffLineOf R.form resource.now batch.now line
        × Writes W.contents lines.old lines.new line) }
    ensures memory { IsErrOf result (OTelSdkError.Memory alloc_error)
        → lines.new ≡ lines.old }
    ensures open { IsErrOf result OTelSdkError.AlreadyShutdown → ⊥ }
    ensures failed { IfErr result (IsWritersError W.may_write) }
    ensures says { IfErr result (SaysOfLine W.may_write) }
    ensures empty { batch.now ≡ [] → IsOk result }
    ensures unflushed { FlushesNever W.flushed lines.old.writer lines.new.writer }
{
    if batch.is_empty() {
        return Ok(());
    }
    let text = batch_text(alloc, resource, batch)?;
    lines.write_line(alloc, text)
}

impl<W: Write, R> OtlpJsonExporter<W, R> {
    /// Creates an exporter that writes to the given writer. Items have no resource until one is
    /// set.
    ///
    /// # Errors
    ///
    /// `AllocError` if out of memory. The writer is dropped.
    pub fn new(alloc: Global, writer: W) -> Result<OtlpJsonExporter<W, R>, AllocError>
    where
        W: Drop,
        ensures { IfOk result (λ exporter. exporter ≡ initial writer) }
    {
        let resource = Resource::builder_empty(alloc).build();
        Ok(OtlpJsonExporter {
            lines: Lines {
                writer,
                newline_is_pending: false,
            },
            alloc,
            resource: Rc::new(alloc, resource)?,
            is_shut_down: false,
            accepted: Accepted::new(),
        })
    }

    /// Sets that the writer's last line has no newline yet, as in a file whose last line another
    /// program didn't finish. The newline is written before the next line, on flush and on
    /// shutdown.
    pub fn with_pending_newline(mut self) -> OtlpJsonExporter<W, R>
        ensures { result ≡ with_pending_newline self }
    {
        self.lines.newline_is_pending = true;
        self
    }

    /// Returns the writer.
    pub fn get_ref(&self) -> &W
        ensures { result.now ≡ self.now.lines.writer }
    {
        &self.lines.writer
    }
}

impl<W: WriterCalls + Drop, R: Grouped> Exporter<R> for OtlpJsonExporter<W, R> {
    ghost use Rattle.otel_otlp.specs.Exporter.{exporter_calls};

    ghost accepted = { λ e. e.accepted };

    ghost calls = { exporter_calls W.contents W.may_write W.flushed };

    /// Writes the batch as a line. Writes nothing for an empty batch.
    ///
    /// # Errors
    ///
    /// - `AlreadyShutdown` after [`Exporter::shutdown`]. Nothing is written.
    /// - `Memory` if out of memory. Nothing is written.
    /// - `Io` with the writer's own error if it failed before it had accepted the pending newline
    ///   and every byte of the object, and `InternalFailure` if it accepted no byte. The accepted
    ///   bytes remain as a truncated line.
    fn export(&mut self, batch: &[R]) -> OTelSdkResult
        ensures ok { OnOk result (self.new.accepted ≡ self.old.accepted ++ batch.now ∷ []) }
        ensures err { OnErr result (self.new.accepted ≡ self.old.accepted) }
        ensures refused { RefusesIfShutDown result self.old self.new }
        ensures memory { IsErrOf result (OTelSdkError.Memory alloc_error)
            → self.new ≡ self.old }
        ensures failed { self.old.is_shut_down ≡ false
            → IfErr result (IsWritersError W.may_write) }
        ensures says { self.old.is_shut_down ≡ false → IfErr result (SaysOfLine W.may_write) }
        ensures empty { self.old.is_shut_down ≡ false → batch.now ≡ [] → IsOk result }
        ensures line { OnOk result ((line : List ℕ)
            × IsLineOf R.form self.old.resource batch.now line
            × Writes W.contents self.old.lines self.new.lines line) }
        ensures cut { OnErr result ((line : List ℕ)
            × IsCutOffLineOf R.form self.old.resource batch.now line
            × Writes W.contents self.old.lines self.new.lines line) }
        ensures unflushed { FlushesNever W.flushed self.old.lines.writer self.new.lines.writer }
        ensures rest { self.new ≡ record self.old {
          accepted = self.new.accepted;
          lines = self.new.lines;
        } }
    {
        if self.is_shut_down {
            return Err(OTelSdkError::AlreadyShutdown);
        }
        write_batch(&mut self.lines, self.alloc, &self.resource, batch)?;
        self.accepted = self.accepted.and(batch);
        Ok(())
    }

    /// Writes the pending newline, if there is one, and flushes the writer.
    ///
    /// # Errors
    ///
    /// - `AlreadyShutdown` after [`Exporter::shutdown`].
    /// - `Io` with the writer's own error if the write of the newline failed.
    /// - `InternalFailure` if the writer didn't accept the newline, or wasn't flushed. Its text is
    ///   empty if out of memory.
    fn force_flush(&mut self) -> OTelSdkResult
        ensures same { self.new.accepted ≡ self.old.accepted }
        ensures flushes { ForceFlushes W.contents W.may_write W.flushed
            result self.old self.new }
    {
        if self.is_shut_down {
            return Err(OTelSdkError::AlreadyShutdown);
        }
        self.lines.flush(self.alloc)
    }

    /// Writes the pending newline, if there is one, flushes the writer, and refuses every later
    /// call.
    ///
    /// # Errors
    ///
    /// - `AlreadyShutdown` on a second call.
    /// - `Io` with the writer's own error if the write of the newline failed.
    /// - `InternalFailure` if the writer didn't accept the newline, or wasn't flushed. Its text is
    ///   empty if out of memory.
    fn shutdown(&mut self) -> OTelSdkResult
        ensures down { self.new ≡ record self.old {
          lines = self.new.lines;
          is_shut_down = true;
        } }
        ensures flushes { ShutsDown W.contents W.may_write W.flushed
            result self.old self.new }
    {
        if self.is_shut_down {
            return Err(OTelSdkError::AlreadyShutdown);
        }
        let flushed = self.lines.flush(self.alloc);
        self.is_shut_down = true;
        flushed
    }

    /// Sets the resource that is written with later batches.
    fn set_resource(&mut self, resource: Rc<Resource>)
        ensures { self.new ≡ record self.old { resource = rc_value resource } }
    {
        self.resource = resource;
    }

    /// Returns that nothing is lost: an accepted batch is written.
    fn losses(&self) -> Losses {
        Losses::default()
    }

    /// Returns `None`: a writer says nothing.
    fn last_message(&self) -> Option<&str> {
        None
    }
}
