//! The exporter.
ghost use Rattle.std.specs.Prelude.{◌≡◌, ◌≤◌, ◌<◌, ℕ, [], ◌∷◌, ◌++◌, length, take};
ghost use Rattle.std.specs.Prelude.{false, true, alloc_error, is_ok};
ghost use Rattle.std.specs.Prelude.{IsOk, IsErrOf, IfErr, IfOk, OnOk, OnErr};
ghost use Rattle.std.specs.Io.KnownBytes.{Appends, Keeps};
ghost use Rattle.std.specs.String.{string_bytes};
ghost use Rattle.otel_sdk_base.specs.Writers.{FlushesNever, FlushesOnce, IsWritersError};
ghost use Rattle.otel_waterfall.specs.Columns.{picture_width};
ghost use Rattle.otel_waterfall.specs.Exporter.{AddsPicture, AddsPartOfPicture};
ghost use Rattle.otel_waterfall.specs.Exporter.{RefusesIfShutDown, SaysOfPicture};
ghost use Rattle.otel_waterfall.specs.Exporter.{SaysThatWriterFailed, TellsOfWrite};
ghost use Rattle.otel_waterfall.specs.Picture.{IsPictureOf};

use crate::columns::Style;
use crate::drawn::drawn;
use crate::pictures::picture;
use otel_sdk_base::error::{OTelSdkError, OTelSdkResult};
use otel_sdk_base::resource::Resource;
use otel_sdk_base::{Accepted, Exporter, Losses, WriterCalls};
use otel_sdk_span::SpanData;
use std::alloc::{AllocError, Global};
use std::default::Default;
use std::io::ErrorKind;
use std::marker::Model;
use std::rc::Rc;

/// Draws each batch of spans for a terminal, and writes the picture to `W`.
///
/// Contracts see the batches that it has accepted, the writer, the width in columns, whether it
/// draws in ASCII, and whether it was shut down.
///
/// ```
/// let exporter = WaterfallExporter::new(alloc, output).with_width(120);
/// ```
#[derive(Debug)]
pub struct WaterfallExporter<W> {
    alloc: Global,
    output: W,
    style: Style,
    is_shut_down: bool,
    accepted: Accepted<SpanData>,
}

// Written out, so that a caller's proof has one call here, and not the drops of all parts.
impl<W: Drop> Drop for WaterfallExporter<W> {
    fn drop(self) {
        let WaterfallExporter {
            alloc: _,
            output: _,
            style: _,
            is_shut_down: _,
            accepted: _,
        } = self;
    }
}

impl<W> Model for WaterfallExporter<W> {
    ghost use Rattle.otel_waterfall.specs.Exporter.{Waterfall};

    ghost Value = { Waterfall W };

    ghost view = { λ e. record {
      accepted = e.accepted.batches;
      output = e.output;
      width = e.style.width;
      is_ascii = e.style.is_ascii;
      is_shut_down = e.is_shut_down;
    } };
}

impl<W> WaterfallExporter<W> {
    /// Returns an exporter that draws in UTF-8, 80 columns wide. Doesn't allocate.
    pub fn new(alloc: Global, output: W) -> WaterfallExporter<W>
        ensures { result ≡ record {
          accepted = [];
          output = output;
          width = 80;
          is_ascii = false;
          is_shut_down = false;
        } }
    {
        WaterfallExporter {
            alloc,
            output,
            style: Style::new(),
            is_shut_down: false,
            accepted: Accepted::new(),
        }
    }

    /// Sets the width in columns. A width below 40 counts as 40.
    pub fn with_width(mut self, width: u16) -> WaterfallExporter<W>
        ensures { result ≡ record self { width = picture_width width } }
    {
        self.style = self.style.with_width(width);
        self
    }

    /// Draws in ASCII.
    pub fn with_ascii(mut self) -> WaterfallExporter<W>
        ensures { result ≡ record self { is_ascii = true } }
    {
        self.style = self.style.with_ascii();
        self
    }

    /// Returns the writer.
    pub fn output(&self) -> &W
        ensures { result.now ≡ self.now.output }
    {
        &self.output
    }
}

/// Writes some of the bytes. An interrupted write is tried again. Returns the number of bytes that
/// the writer took, one or more.
///
/// # Errors
///
/// `Io` with the error of a write that failed, and `InternalFailure` if a write took no byte.
fn write_some<W: WriterCalls>(
    alloc: Global,
    output: &mut W,
    bytes: &[u8],
) -> Result<usize, OTelSdkError>
    requires { 0 < length bytes.now }
    ensures some { IfOk result (λ n. (0 < n) × (n ≤ length bytes.now)
        × Appends (W.contents output.old) (W.contents output.new) (take n bytes.now)) }
    ensures none { OnErr result (Keeps (W.contents output.old) (W.contents output.new)) }
    ensures failed { IfErr result (IsWritersError W.may_write) }
    ensures says { IfErr result (TellsOfWrite W.may_write) }
    ensures unflushed { FlushesNever W.flushed output.old output.new }
{
    let mut interrupted = None;
    for _ in 0..u64::MAX {
        match output.write_some(bytes) {
            Ok(0) => return Err(writer_failed(alloc)),
            Ok(count) => return Ok(count),
            Err(error) => match error.kind() {
                ErrorKind::Interrupted => interrupted = Some(error),
                _ => return Err(OTelSdkError::Io(error)),
            },
        }
    }
    match interrupted {
        Some(error) => Err(OTelSdkError::Io(error)),
        None => Err(writer_failed(alloc)),
    }
}

/// Writes all bytes.
///
/// # Errors
///
/// `Io` with the error of a write that failed, and `InternalFailure` if a write took no byte. The
/// writer may have taken the first bytes.
fn write_all<W: WriterCalls>(alloc: Global, output: &mut W, bytes: &[u8]) -> OTelSdkResult
    ensures all { OnOk result
        (Appends (W.contents output.old) (W.contents output.new) bytes.now) }
    ensures cut { (n : ℕ) × Appends (W.contents output.old) (W.contents output.new)
        (take n bytes.now) }
    ensures failed { IfErr result (IsWritersError W.may_write) }
    ensures says { IfErr result (TellsOfWrite W.may_write) }
    ensures unflushed { FlushesNever W.flushed output.old output.new }
{
    let mut rest = bytes;
    while !rest.is_empty() {
        match write_some(alloc, output, rest) {
            Ok(count) => rest = &rest[count..],
            Err(error) => return Err(error),
        }
    }
    Ok(())
}

/// Returns the picture of a batch of spans.
fn picture_of(alloc: Global, style: Style, batch: &[SpanData]) -> Result<String, AllocError>
    ensures { IfOk result (λ text.
        IsPictureOf style.is_ascii style.width batch.now (string_bytes text)) }
{
    let spans = drawn(alloc, style.is_ascii, batch)?;
    picture(alloc, style, spans.as_slice())
}

/// Returns the error that says that the writer failed. Its text is empty if out of memory.
fn writer_failed(alloc: Global) -> OTelSdkError
    ensures { SaysThatWriterFailed result }
{
    match String::from_str(alloc, "the writer failed") {
        Ok(message) => OTelSdkError::InternalFailure(message),
        Err(_) => OTelSdkError::InternalFailure(String::new(alloc)),
    }
}

/// Writes the picture of a batch of spans, which is empty if the batch is.
#[tactic(auto, using(crate::proofs::Empty::no_picture))]
fn write_picture<W: WriterCalls>(
    alloc: Global,
    style: Style,
    output: &mut W,
    batch: &[SpanData],
) -> OTelSdkResult
    ensures whole { OnOk result (AddsPicture style.is_ascii style.width batch.now
        (W.contents output.old) (W.contents output.new)) }
    ensures cut { OnErr result (AddsPartOfPicture style.is_ascii style.width batch.now
        (W.contents output.old) (W.contents output.new)) }
    ensures memory { IsErrOf result (OTelSdkError.Memory alloc_error)
        → output.new ≡ output.old }
    ensures open { IsErrOf result OTelSdkError.AlreadyShutdown → ⊥ }
    ensures failed { IfErr result (IsWritersError W.may_write) }
    ensures says { IfErr result (SaysOfPicture W.may_write) }
    ensures empty { batch.now ≡ [] → IsOk result }
    ensures unflushed { FlushesNever W.flushed output.old output.new }
{
    if batch.is_empty() {
        return Ok(());
    }
    let text = picture_of(alloc, style, batch)?;
    write_all(alloc, output, text.as_bytes())?;
    Ok(())
}

/// Flushes the writer.
///
/// # Errors
///
/// `InternalFailure` if the writer failed. Its text is empty if out of memory.
fn flush<W: WriterCalls>(alloc: Global, output: &mut W) -> OTelSdkResult
    ensures once { FlushesOnce W.flushed (is_ok result) output.old output.new }
    ensures failed { IfErr result SaysThatWriterFailed }
    ensures bytes { Keeps (W.contents output.old) (W.contents output.new) }
    ensures open { IsErrOf result OTelSdkError.AlreadyShutdown → ⊥ }
{
    if output.flush_all() {
        return Ok(());
    }
    Err(writer_failed(alloc))
}

impl<W: WriterCalls + Drop> Exporter<SpanData> for WaterfallExporter<W> {
    ghost use Rattle.otel_waterfall.specs.Exporter.{exporter_calls};

    ghost accepted = { λ e. e.accepted };

    ghost calls = { exporter_calls W.contents W.may_write W.flushed };

    /// Draws the batch, and writes the picture. An empty batch is accepted, and nothing is written.
    ///
    /// # Errors
    ///
    /// - `AlreadyShutdown` after [`Exporter::shutdown`], and `Memory` if out of memory. Nothing is
    ///   written then.
    /// - `Io` with the writer's own error if a write failed, and `InternalFailure` if it took no
    ///   byte, with an empty text if out of memory. It may have taken a part of the picture.
    fn export(&mut self, batch: &[SpanData]) -> OTelSdkResult
        ensures ok { OnOk result (self.new.accepted ≡ self.old.accepted ++ batch.now ∷ []) }
        ensures err { OnErr result (self.new.accepted ≡ self.old.accepted) }
        ensures refused { RefusesIfShutDown result self.old self.new }
        ensures memory { IsErrOf result (OTelSdkError.Memory alloc_error)
            → self.new ≡ self.old }
        ensures picture { OnOk result (AddsPicture self.old.is_ascii self.old.width batch.now
            (W.contents self.old.output) (W.contents self.new.output)) }
        ensures cut { OnErr result (AddsPartOfPicture self.old.is_ascii self.old.width batch.now
            (W.contents self.old.output) (W.contents self.new.output)) }
        ensures failed { self.old.is_shut_down ≡ false
            → IfErr result (IsWritersError W.may_write) }
        ensures says { self.old.is_shut_down ≡ false
            → IfErr result (SaysOfPicture W.may_write) }
        ensures empty { self.old.is_shut_down ≡ false → batch.now ≡ [] → IsOk result }
        ensures unflushed { FlushesNever W.flushed self.old.output self.new.output }
        ensures nothing { batch.now ≡ [] → OnOk result
            (Appends (W.contents self.old.output) (W.contents self.new.output) []) }
        ensures rest { self.new ≡ record self.old {
          accepted = self.new.accepted;
          output = self.new.output;
        } }
    {
        if self.is_shut_down {
            return Err(OTelSdkError::AlreadyShutdown);
        }
        write_picture(self.alloc, self.style, &mut self.output, batch)?;
        self.accepted = self.accepted.and(batch);
        Ok(())
    }

    /// Flushes the writer.
    ///
    /// # Errors
    ///
    /// - `AlreadyShutdown` after [`Exporter::shutdown`].
    /// - `InternalFailure` if the writer failed. Its text is empty if out of memory.
    fn force_flush(&mut self) -> OTelSdkResult
        ensures refused { RefusesIfShutDown result self.old self.new }
        ensures bytes { Keeps (W.contents self.old.output) (W.contents self.new.output) }
        ensures once { self.old.is_shut_down ≡ false
            → FlushesOnce W.flushed (is_ok result) self.old.output self.new.output }
        ensures failed { self.old.is_shut_down ≡ false → IfErr result SaysThatWriterFailed }
        ensures rest { self.new ≡ record self.old { output = self.new.output } }
    {
        if self.is_shut_down {
            return Err(OTelSdkError::AlreadyShutdown);
        }
        flush(self.alloc, &mut self.output)
    }

    /// Flushes the writer, and refuses every later call.
    ///
    /// # Errors
    ///
    /// - `AlreadyShutdown` on a second call.
    /// - `InternalFailure` if the writer failed. Its text is empty if out of memory.
    fn shutdown(&mut self) -> OTelSdkResult
        ensures refused { RefusesIfShutDown result self.old self.new }
        ensures bytes { Keeps (W.contents self.old.output) (W.contents self.new.output) }
        ensures once { self.old.is_shut_down ≡ false
            → FlushesOnce W.flushed (is_ok result) self.old.output self.new.output }
        ensures failed { self.old.is_shut_down ≡ false → IfErr result SaysThatWriterFailed }
        ensures down { self.new ≡ record self.old {
          output = self.new.output;
          is_shut_down = true;
        } }
    {
        if self.is_shut_down {
            return Err(OTelSdkError::AlreadyShutdown);
        }
        let flushed = flush(self.alloc, &mut self.output);
        self.is_shut_down = true;
        flushed
    }

    /// Does nothing: a picture doesn't show resources.
    fn set_resource(&mut self, resource: Rc<Resource>)
        ensures { self.new ≡ self.old }
    {
        drop(resource);
    }

    /// Returns that nothing is lost: an accepted batch is written.
    fn losses(&self) -> Losses {
        Losses::default()
    }

    /// Returns `None`: a writer says nothing.
    fn last_message(&self) -> Option<&str> {
        None
    }
}
