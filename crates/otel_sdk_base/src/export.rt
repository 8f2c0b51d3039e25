//! Exporters, which send ended spans or log records out of the program.
ghost use Rattle.std.specs.Prelude.{◌≡◌, [], ◌∷◌, ◌++◌, IfErr, OnOk, OnErr};
ghost use Rattle.std.specs.Option.{option_copied};
ghost use Rattle.std.specs.Rc.{rc_value};
ghost use Rattle.otel_sdk_base.specs.Writers.{FlushesNever, FlushesOnce};

use crate::error::OTelSdkResult;
use crate::losses::Losses;
use crate::resource::Resource;
use std::rc::Rc;

/// Sends items out of the program in batches: ended spans (the Rust crate's `SpanExporter`) or log
/// records (its `LogExporter`).
///
/// A batch is accepted or refused as a whole. The ghost member `accepted` gives the batches that
/// the exporter has accepted. The ghost member `calls` says what each other call did: a refusal of
/// a batch (`refuses`), a flush, a shutdown, and a resource that was set. Each relates the states
/// before and after, and the error, the answer or the resource. `calls.flushed` relates the
/// exporter and its answers to the flushes so far, which only its calls show. `calls.losses` and
/// `calls.last_message` are the accepted items that the receiver doesn't have, and what it said.
///
/// If an exporter can never write an item, it must accept the item and count it itself, since a
/// processor exports a refused batch again.
pub trait Exporter<T>: Drop {
    ghost use Rattle.std.specs.Prelude.{List};
    ghost use Rattle.otel_sdk_base.specs.Export.{Calls};

    ghost accepted: { Self → List (List T) };

    ghost calls: { Calls Self };

    /// Exports the items of the batch, which isn't empty.
    ///
    /// # Errors
    ///
    /// The whole batch is refused, and may be exported again.
    fn export(&mut self, batch: &[T]) -> OTelSdkResult
        ensures ok { OnOk result (accepted self.new ≡ accepted self.old ++ batch.now ∷ []) }
        ensures err { OnErr result (accepted self.new ≡ accepted self.old) }
        ensures refused { IfErr result (λ error. calls.refuses self.old error self.new) }
        ensures unflushed { FlushesNever calls.flushed self.old self.new };

    /// Writes out the accepted items that aren't written yet.
    ///
    /// # Errors
    ///
    /// Some items aren't written. Accepted items stay accepted.
    fn force_flush(&mut self) -> OTelSdkResult
        ensures same { accepted self.new ≡ accepted self.old }
        ensures flushed { calls.flushes self.old result self.new }
        ensures once { FlushesOnce calls.flushed result self.old self.new };

    /// Shuts the exporter down.
    ///
    /// # Errors
    ///
    /// The exporter's own error. The exporter is shut down anyway.
    fn shutdown(&mut self) -> OTelSdkResult
        ensures { calls.shuts_down self.old result self.new };

    /// Sets the resource of later items.
    fn set_resource(&mut self, resource: Rc<Resource>)
        ensures same { accepted self.new ≡ accepted self.old }
        ensures told { calls.takes_resource self.old (rc_value resource) self.new };

    /// Returns how many of the accepted items the receiver doesn't have, by cause: it rejected
    /// them, the exporter gave them up, or they still wait here.
    fn losses(&self) -> Losses
        ensures { result ≡ calls.losses self.now };

    /// Returns the receiver's last message, such as why it rejected items.
    fn last_message(&self) -> Option<&str>
        ensures { option_copied result ≡ calls.last_message self.now };
}
