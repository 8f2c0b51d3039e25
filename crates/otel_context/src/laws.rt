//! Laws about the crate's types, each the contract of a function that does nothing.
ghost use Rattle.otel_context.specs.BaggageLaws.{HeaderDetermines, HeaderIsShort};
ghost use Rattle.otel_context.specs.StackLaws.{DetachRestores, AttachIsCurrent, AttachLeavesAll};
ghost use Rattle.otel_context.specs.StackLaws.{RemovalLeavesOthers, RemovalKeepsOrder};

/// States two laws of baggage headers, for callers to cite. Not in the Rust crate.
///
/// - If no metadata contains a comma, baggages with equal headers have equal members.
/// - A header has at most 24575 bytes.
pub fn header_reading()
    ensures determines { HeaderDetermines }
    ensures short { HeaderIsShort }
{}

/// States how attaching and removing change a stack, for callers of
/// [`ContextStack`](crate::ContextStack) to cite. Not in the Rust crate.
pub fn stack_calls()
    // Detaching the guard that an attach has just returned restores the earlier attachments.
    ensures restores { DetachRestores }
    // The context attached last is current.
    ensures current { AttachIsCurrent }
    // An attach leaves every attachment at its position.
    ensures stays { AttachLeavesAll }
    // A removal leaves every other attachment at its position,
    ensures others { RemovalLeavesOthers }
    // and in the same order.
    ensures order { RemovalKeepsOrder }
{}
