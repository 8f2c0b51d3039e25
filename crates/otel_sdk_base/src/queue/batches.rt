//! Exports a queue in batches.
ghost use Rattle.std.specs.Prelude.{◌≡◌, ◌≤◌, ◌<◌, ◌↔◌, IfErr, IsOk, length};
ghost use Rattle.otel_sdk_base.specs.Export.{AreExported, AreExportedUpTo, last_of, refuses_with};
ghost use Rattle.otel_sdk_base.specs.Writers.{FlushesNever};

use crate::error::OTelSdkResult;
use crate::export::Exporter;

/// Exports the items in batches of at most `size` until a batch is refused. Returns the number of
/// items left, and the error if any are left.
pub(crate) fn export_batches<T, E: Exporter<T>>(
    exporter: &mut E,
    items: &[T],
    size: usize,
) -> (usize, OTelSdkResult)
    requires { 0 < size }
    ensures within { result.0 ≤ length items.now }
    ensures exported { AreExported size items.now
        (E.accepted exporter.old) (E.accepted exporter.new) (last_of result.0 items.now) }
    ensures outcome { IsOk result.1 ↔ (result.0 ≡ 0) }
    ensures refused { IfErr result.1 (λ error. AreExportedUpTo E.accepted
        (refuses_with E.calls error) size items.now (last_of result.0 items.now)
        exporter.old exporter.new) }
    ensures unflushed { FlushesNever E.calls.flushed exporter.old exporter.new }
{
    let mut left = items;
    while !left.is_empty() {
        let (batch, rest) = left.split_at(size.min(left.len()));
        if let Err(error) = exporter.export(batch) {
            return (left.len(), Err(error));
        }
        left = rest;
    }
    (0, Ok(()))
}
