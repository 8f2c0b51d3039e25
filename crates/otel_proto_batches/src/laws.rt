//! Laws of the definitions, each the contract of a function that does nothing.
ghost use Rattle.otel_proto_batches.specs.Laws.{EqualTracesSaySame, EqualLogsSaySame};

/// States that batches of spans with equal bytes are of resources with the same attributes and
/// schema URL, and have the same groups, in order: their scopes have the same name, version, schema
/// URL and attributes, and their spans have the same ids, the parent's too, the same flags, kind,
/// name, times and status, the same attributes, events and links, the same counts of what was
/// dropped, the same trace state in a header, and either both have a remote parent or neither.
///
/// Not told apart are arrays without items of different types, and an empty version or schema URL
/// from none. The numbers have to fit their types, as in all spans of programs.
pub fn equal_traces_say_same()
    ensures { EqualTracesSaySame }
{}

/// States that batches of log records with equal bytes are of resources with the same attributes
/// and schema URL, and have the same groups, in order: their scopes are the same as in
/// [`equal_traces_say_same`], and their records have the same times, severity, body, attributes with
/// the target last, count of what was dropped or cut, and event name, and were made in spans with
/// the same ids and flags, or both outside of spans.
///
/// Not told apart are a time, flags or a text that is 0 or empty from none, a target from a last
/// attribute `log.target`, and what is cut: the lists and maps within 29 others. The numbers have to
/// fit their types, as in all records of programs.
pub fn equal_logs_say_same()
    ensures { EqualLogsSaySame }
{}
