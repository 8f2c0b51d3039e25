//! Laws about value trees. Each is the contract of a function that does nothing.

ghost use Rattle.otel_base.specs.Laws.{SameMap};

/// States when two [`AnyValue::Map`](crate::AnyValue)s are equal. The order of their pairs doesn't
/// matter.
pub fn maps_are_finite()
    // Two maps that have the same value at each key are equal.
    ensures same { SameMap }
{}
