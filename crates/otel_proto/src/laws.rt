//! Laws of the definitions, each the contract of a function that does nothing.
ghost use Rattle.otel_proto.specs.Laws.{WrittenFieldsReadBack, EqualBytesSaySame};

/// States that the bytes of fields are read as these fields, in order, and as nothing else, if each
/// fits its wire type.
pub fn written_fields_read_back()
    ensures { WrittenFieldsReadBack }
{}

/// States that fields with the same bytes are the same, if each fits its wire type.
pub fn equal_bytes_say_same()
    ensures { EqualBytesSaySame }
{}
