//! Laws of the definitions, each the contract of a function that does nothing.
ghost use Rattle.std.specs.Prelude.{ℕ, List};
ghost use Rattle.otel_otlp.specs.HttpExporter.{RecordsAreCounted, Sending, ShutdownKeepsAccepted};
ghost use Rattle.otel_otlp.specs.Lossless.{EqualValuesSaySame, EqualGroupsNameSame};
ghost use Rattle.otel_otlp.specs.Lossless.{EqualBatchesSaySame, EqualTextsSaySame};
ghost use Rattle.otel_otlp.specs.LogsReadBack.{RecordBatchesReadBack, RecordsReadBack};
ghost use Rattle.otel_otlp.specs.LogsReadBack.{RecordBatchesAreShallow};
ghost use Rattle.otel_otlp.specs.ReadBack.{BatchesReadBack, SpansReadBack};
ghost use Rattle.otel_otlp.specs.Trees.{UncountedTreesAreWhole};

use crate::otlp_http::{ClockCalls, HttpClient};

/// States that spans with equal values have the same ids, the parent's too, the same flags, kind,
/// name, times and status, the same attributes, events and links, the same counts of what was
/// dropped, the same trace state in a header, and either both have a remote parent or neither.
/// Attributes are the same but for the type of an array without items.
pub fn equal_values_say_same()
    ensures { EqualValuesSaySame }
{}

/// States that groups of spans with equal values are of scopes with the same name and version.
pub fn equal_groups_name_same()
    ensures { EqualGroupsNameSame }
{}

/// States that batches with equal values are of resources with the same attributes and schema URL,
/// and have the same groups, in order: their scopes have the same name, version, schema URL and
/// attributes, and their spans agree on everything that [`equal_values_say_same`] names.
pub fn equal_batches_say_same()
    ensures { EqualBatchesSaySame }
{}

/// States that no text belongs to two batches, unless the batches are the same in the sense of
/// [`equal_batches_say_same`].
pub fn equal_texts_say_same()
    ensures { EqualTextsSaySame }
{}

/// States that the text of a batch is a line that [`crate::read_resource_spans`] reads as the
/// batch's resource with its spans, scope by scope, and as nothing else.
///
/// Lost are the type of an array without items, which is read as one of texts, the blanks at the
/// ends of a trace state's values, whether a span's own context is remote, earlier values of a key
/// of a scope or of a resource, and differences between equal scopes. The numbers have to fit their
/// types, and the trace states have to be ones, as in all spans of programs.
pub fn batches_read_back()
    ensures { BatchesReadBack }
{}

/// States the same of [`crate::read_traces`], without the resources.
pub fn spans_read_back()
    ensures { SpansReadBack }
{}

/// States that the text of a batch of log records is a line that [`crate::read_resource_logs`] reads
/// as the batch's resource with its records, scope by scope, and as nothing else.
///
/// Lost are the limits on attributes, which aren't in the protocol: the default ones are read. A
/// list or map within 29 others is read as the text `..`, which is written for it, and counted as a
/// dropped attribute. The target is lost if an attribute has the key `log.target`, and a text under
/// this key in last place is read as the target. Of resources and scopes the same is lost as in
/// [`batches_read_back`]. The numbers have to fit their types, and the keys of each map have to
/// rise, as in all records of programs.
pub fn record_batches_read_back()
    ensures { RecordBatchesReadBack }
{}

/// States the same of [`crate::read_logs`], without the resources.
pub fn records_read_back()
    ensures { RecordsReadBack }
{}

/// States that the value of a batch of log records nests at most 127 deep, as deep as a reader of
/// JSON accepts.
pub fn record_batches_are_shallow()
    ensures { RecordBatchesAreShallow }
{}

/// States that a body or an attribute of a log record is written whole if none of its parts is
/// counted as cut.
pub fn uncounted_trees_are_whole()
    ensures { UncountedTreesAreWhole }
{}

/// States that each record of the batches that an [`crate::OtlpHttpExporter`] has accepted is
/// counted once: the collector took it and didn't reject it, or it is among the exporter's losses,
/// for one cause. A shutdown changes no accepted batch.
pub fn records_are_counted<C: HttpClient, R, K: ClockCalls>()
    ensures counted { (s : Sending C R) → RecordsAreCounted s }
    ensures kept { (name : List ℕ) (s : Sending C R)
        → ShutdownKeepsAccepted C.sent C.answers K.shows name s }
{}
