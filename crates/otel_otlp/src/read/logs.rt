//! Reads lines of log records.
ghost use Rattle.std.specs.Prelude.{List, IfOk, IfErr, map};
ghost use Rattle.otel_sdk_logs.specs.LogRecord.{LogEntry};
ghost use Rattle.otel_otlp.specs.ReadGroups.{ResourceItems};
ghost use Rattle.otel_otlp.specs.ReadErrors.{NamesLine, IsRefusal};
ghost use Rattle.otel_otlp.specs.ReadLogs as spec;
ghost use Rattle.otel_otlp.specs.ReadView.{records_of};

use crate::read::error::{Fault, ReadError};
use crate::read::groups::{Group, items_of, joined};
use crate::read::lines::groups_in_line;
use crate::read::members::check_object;
use crate::read::messages::Message;
use crate::read::resources::resource_in;
use otel_sdk_base::resource::Resource;
use otel_sdk_logs::LogData;
use serde_json::Value;
use std::alloc::Global;

/// The log records of a resource (the protocol's `ResourceLogs`).
///
/// See [`read_resource_logs`].
#[derive(Debug, Drop)]
pub struct ResourceLogs {
    /// The entity that the records describe.
    pub resource: Resource,
    /// The records, in the order of the line.
    pub records: Vec<LogData>,
}

impl Group<LogData> for ResourceLogs {
    ghost held = { λ group. group.records.items };

    fn into_items(self) -> Vec<LogData> {
        self.records
    }
}

impl Message for ResourceLogs {
    ghost use Rattle.otel_sdk_logs.specs.LogRecord.{LogEntry};
    ghost use Rattle.otel_otlp.specs.Logs.{form};
    ghost use Rattle.otel_otlp.specs.ReadGroups.{ResourceItems, IsResourceGroup};
    ghost use Rattle.otel_otlp.specs.ReadLogs.{IsEntry};
    ghost use Rattle.otel_otlp.specs.ReadView.{records_of};

    ghost Seen = { ResourceItems LogEntry };

    ghost seen = { records_of };

    ghost says = { IsResourceGroup form IsEntry };

    fn read(alloc: Global, value: &Value) -> Result<ResourceLogs, Fault> {
        check_object(alloc, value)?;
        let resource = resource_in(alloc, value)?;
        let records = items_of::<LogData>(alloc, value)?;
        Ok(ResourceLogs { resource, records })
    }
}

/// Reads the log records of a line of OTLP's JSON, whoever wrote it, with the resource that they
/// describe (OpenTelemetry protocol, "JSON Protobuf Encoding"). Resources and records are in the
/// order of the line; a resource that the line names twice is there twice.
///
/// Unknown members are ignored, and one that is null counts as absent. Ids are hexadecimal digits
/// of either case, and an empty one counts as absent; without both ids, flags aren't read. Numbers
/// of 64 bits are numbers or decimal texts, and severities are numbers or names. A last attribute
/// `log.target` that is a text is read as the target.
///
/// Bodies and attributes of records are trees: bytes are read from base64 of either alphabet, with
/// or without padding, and of a map's keys with the same name, the last value is read. Trees have
/// no floats, which are read as their text, and no empty value, which is read as the empty text. A
/// list or map within 32 others is read as the text of its JSON. Resources and scopes are read as
/// [`crate::read_resource_spans`] reads them.
///
/// A line may have at most 127 lists and objects within each other. The memory is in proportion to
/// the line.
///
/// # Errors
///
/// `Json` if the line isn't JSON; `Unexpected` with the place of a value that isn't allowed there;
/// `Memory` if out of memory.
pub fn read_resource_logs(alloc: Global, line: &str) -> Result<Vec<ResourceLogs>, ReadError>
    ensures read { IfOk result (λ read.
        spec.AreGroupsReadFrom line.now (map records_of read.items)) }
    ensures refused { IfErr result (λ e. IsRefusal e
        → (gs : List (ResourceItems LogEntry)) → ¬ spec.AreGroupsReadFrom line.now gs) }
    ensures line { IfErr result (NamesLine line.now) }
{
    groups_in_line::<ResourceLogs>(alloc, line, "resourceLogs")
}

/// Reads the log records of a line as [`read_resource_logs`] does, in order, without their
/// resources.
///
/// # Errors
///
/// As of [`read_resource_logs`].
pub fn read_logs(alloc: Global, line: &str) -> Result<Vec<LogData>, ReadError>
    ensures read { IfOk result (λ read. spec.AreReadFrom line.now read.items) }
    ensures refused { IfErr result (λ e. IsRefusal e
        → (es : List LogEntry) → ¬ spec.AreReadFrom line.now es) }
    ensures line { IfErr result (NamesLine line.now) }
{
    let groups = read_resource_logs(alloc, line)?;
    Ok(joined(alloc, groups)?)
}
