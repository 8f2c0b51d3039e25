//! Laws of the definitions, each the contract of a function that does nothing.
ghost use Rattle.otel_proto_answers.specs.Laws.{MergedMessagesAreJoined};
ghost use Rattle.otel_proto_answers.specs.Laws.{WrittenResponseReadsBack};

/// States that the bytes of a response are read as its number of rejected items and its message.
pub fn written_response_reads_back()
    ensures { WrittenResponseReadsBack }
{}

/// States that messages that are read as one are read as their bytes, one after the other.
pub fn merged_messages_are_joined()
    ensures { MergedMessagesAreJoined }
{}
