//! The values of key-value pairs as values of attributes.
ghost use Rattle.std.specs.Prelude.{◌≡◌, IfOk, option_map};
ghost use Rattle.otel_base.specs.View.{tree};
ghost use Rattle.otel_appender_log.specs.Value.{IsAttributeValue, IsNumberOrText};

use log::kv::Value;
use opentelemetry::logs::AnyValue;
use std::alloc::{AllocError, Global};
use std::fmt::Display;

/// Returns the attribute's value for a pair's value: a boolean for a `bool`, an integer for an
/// integer that fits an `i64`, `None` for null, and otherwise the text written by `{}`.
///
/// # Errors
///
/// `AllocError` if out of memory for the text, or if the value's own `fmt` fails.
pub fn attribute_value<D: Display>(
    alloc: Global,
    value: &Value<'_, D>,
) -> Result<Option<AnyValue>, AllocError>
    ensures { IfOk result (λ a. IsAttributeValue D.output value.now (option_map tree a)) }
{
    match value {
        Value::Null => Ok(None),
        Value::Bool(b) => Ok(Some(AnyValue::from(*b))),
        _ => Ok(Some(number_or_text(alloc, value)?)),
    }
}

// Returns the integer if it fits, and otherwise the text.
fn number_or_text<D: Display>(alloc: Global, value: &Value<'_, D>) -> Result<AnyValue, AllocError>
    ensures { IfOk result (λ a. IsNumberOrText D.output value.now (tree a)) }
{
    match value.to_i64() {
        Some(number) => Ok(AnyValue::from(number)),
        None => {
            let printed = String::format(alloc, value)?;
            Ok(AnyValue::from(printed))
        }
    }
}
