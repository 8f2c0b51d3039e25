//! An exporter that keeps items in memory.
ghost use Rattle.std.specs.Prelude.{◌≡◌, [], ◌∷◌, ◌++◌, true, false};
ghost use Rattle.std.specs.Prelude.{IsOk, IsTrue, IfErr, IfOk, IsErrOf, OnErr, OnOk};
ghost use Rattle.std.specs.Prelude.{alloc_error, not};
ghost use Rattle.otel_sdk_base.specs.Export.{items_of};

use crate::error::{OTelSdkError, OTelSdkResult};
use crate::export::Exporter;
use crate::losses::Losses;
use crate::resource::Resource;
use std::alloc::{AllocError, Global};
use std::marker::Model;
use std::rc::Rc;

/// A type whose clones equal the original in contracts. Not in the Rust crates.
pub trait ExactClone: Clone + Drop {
    ghost is_exact: { (x copy : Self) → Self.is_clone x copy → copy ≡ x };
}

/// Keeps copies of the items that it accepts, for tests (the Rust crate's `InMemorySpanExporter`
/// and `InMemoryLogExporter`).
///
/// Contracts see the batches that it accepted, and whether it was shut down.
#[derive(Debug, Drop)]
pub struct InMemoryExporter<T> {
    batches: Vec<Vec<T>>,
    is_shut_down: bool,
}

impl<T> Model for InMemoryExporter<T> {
    ghost use Rattle.std.specs.Prelude.{map};
    ghost use Rattle.otel_sdk_base.specs.Export.{InMemory};

    ghost Value = { InMemory T };

    ghost view = { λ e. record {
      accepted = map (λ b. b.items) e.batches.items;
      is_shut_down = e.is_shut_down;
    } };
}

impl<T: ExactClone> InMemoryExporter<T> {
    /// Creates an exporter without items. Never allocates.
    pub fn new(alloc: Global) -> InMemoryExporter<T>
        ensures { result ≡ record { accepted = []; is_shut_down = false } }
    {
        InMemoryExporter {
            batches: Vec::new(alloc),
            is_shut_down: false,
        }
    }

    /// Returns copies of the kept items, in order.
    ///
    /// # Errors
    ///
    /// `AllocError` if out of memory. The exporter is unchanged.
    pub fn get_items(&self) -> Result<Vec<T>, AllocError>
        ensures { IfOk result (λ items. items.items ≡ items_of self.now.accepted) }
    {
        let mut items = Vec::new(*self.batches.allocator());
        for batch in &self.batches {
            append(&mut items, batch.as_slice())?;
        }
        Ok(items)
    }

    /// Drops the kept items.
    pub fn reset(&mut self)
        ensures { self.new ≡ record self.old { accepted = [] } }
    {
        self.batches.clear();
    }
}

/// Appends copies of the items, in order.
///
/// # Errors
///
/// `AllocError` if out of memory. Some of the copies may have been appended.
fn append<T: ExactClone>(copies: &mut Vec<T>, items: &[T]) -> Result<(), AllocError>
    ensures { OnOk result (copies.new.items ≡ copies.old.items ++ items.now) }
{
    copies.reserve(items.len())?;
    for item in items {
        copies.push(item.clone()?)?;
    }
    Ok(())
}

impl<T: ExactClone> Exporter<T> for InMemoryExporter<T> {
    ghost use Rattle.otel_sdk_base.specs.Export.{in_memory_calls};

    ghost accepted = { λ e. e.accepted };

    ghost calls = { in_memory_calls };

    /// Keeps a copy of the items.
    ///
    /// # Errors
    ///
    /// `AlreadyShutdown` after [`Exporter::shutdown`], otherwise `Memory` if out of memory. The
    /// exporter is unchanged.
    fn export(&mut self, batch: &[T]) -> OTelSdkResult
        ensures ok { OnOk result (self.new.accepted ≡ self.old.accepted ++ batch.now ∷ []) }
        ensures err { OnErr result (self.new ≡ self.old) }
        ensures closed { IsTrue self.old.is_shut_down
            → IsErrOf result OTelSdkError.AlreadyShutdown }
        ensures memory { IfErr result (λ error. IsTrue (not self.old.is_shut_down)
            → error ≡ OTelSdkError.Memory alloc_error) }
    {
        if self.is_shut_down {
            return Err(OTelSdkError::AlreadyShutdown);
        }
        let mut copy = Vec::new(*self.batches.allocator());
        append(&mut copy, batch)?;
        self.batches.push(copy)?;
        Ok(())
    }

    /// Does nothing, since no write is pending.
    fn force_flush(&mut self) -> OTelSdkResult
        ensures ok { IsOk result }
        ensures same { self.new ≡ self.old }
    {
        Ok(())
    }

    /// Drops the items, and refuses every later batch.
    fn shutdown(&mut self) -> OTelSdkResult
        ensures ok { IsOk result }
        ensures emptied { self.new ≡ record { accepted = []; is_shut_down = true } }
    {
        self.reset();
        self.is_shut_down = true;
        Ok(())
    }

    /// Does nothing: the items are kept without a resource.
    fn set_resource(&mut self, resource: Rc<Resource>)
        ensures { self.new ≡ self.old }
    {
        drop(resource);
    }

    /// Returns that nothing is lost.
    fn losses(&self) -> Losses {
        Losses::default()
    }

    /// Returns `None`: nothing is sent.
    fn last_message(&self) -> Option<&str> {
        None
    }
}
