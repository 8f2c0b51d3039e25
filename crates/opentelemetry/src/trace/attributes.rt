//! Lists of attributes in events and links.
ghost use Rattle.std.specs.Prelude.{◌≡◌, IfOk};
ghost use Rattle.otel_context.specs.SpanEffects.{attributes_of};
ghost use Rattle.opentelemetry.specs.Event.{attributes_eq};

use otel_base::KeyValue;
use std::alloc::AllocError;

// Returns `true` if both have the same attributes in the same order.
pub fn same_attributes(left: &Vec<KeyValue>, right: &Vec<KeyValue>) -> bool
    ensures { result ≡ attributes_eq (attributes_of left.now) (attributes_of right.now) }
{
    *left == *right
}

// Returns the same attributes in the same order.
pub fn copy_attributes(attributes: &Vec<KeyValue>) -> Result<Vec<KeyValue>, AllocError>
    ensures { IfOk result (λ copy. attributes_of copy ≡ attributes_of attributes.now) }
{
    Ok(attributes.clone()?)
}
