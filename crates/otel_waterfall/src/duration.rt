//! The text of a duration.
ghost use Rattle.std.specs.Prelude.{◌≡◌, ◌<◌, IfOk};
ghost use Rattle.std.specs.String.{string_bytes};
ghost use Rattle.otel_waterfall.specs.Duration as spec;

use std::alloc::{AllocError, Global};

/// Returns the text of `n` nanoseconds in a unit. A hundredth of it is `hundredth` nanoseconds.
fn in_units(alloc: Global, n: u64, hundredth: u64, unit: &str) -> Result<String, AllocError>
    requires some { 0 < hundredth }
    requires few { hundredth < 100000000 }
    ensures { IfOk result (λ text. string_bytes text ≡ spec.in_units n hundredth unit.now) }
{
    let whole = n / (100 * hundredth);
    let tenths = n / (10 * hundredth) % 10;
    let hundredths = n / hundredth % 10;
    if n < 1000 * hundredth {
        format!(in alloc; "{whole}.{tenths}{hundredths}{unit}")
    } else if n < 10000 * hundredth {
        format!(in alloc; "{whole}.{tenths}{unit}")
    } else {
        format!(in alloc; "{whole}{unit}")
    }
}

/// Returns the text of a length in nanoseconds, in the greatest unit that isn't longer.
fn length_text(alloc: Global, n: u64) -> Result<String, AllocError>
    ensures { IfOk result (λ text. string_bytes text ≡ spec.length_text n) }
{
    if n < 1000 {
        format!(in alloc; "{n}ns")
    } else if n < 1000000 {
        in_units(alloc, n, 10, "us")
    } else if n < 1000000000 {
        in_units(alloc, n, 10000, "ms")
    } else {
        in_units(alloc, n, 10000000, "s")
    }
}

/// Returns the text of the time from a start to an end, with a minus sign if the end is before the
/// start.
pub fn duration_text(alloc: Global, start: u64, end: u64) -> Result<String, AllocError>
    ensures { IfOk result (λ text. string_bytes text ≡ spec.duration_text start end) }
{
    if end < start {
        let length = length_text(alloc, start - end)?;
        let length = length.as_str();
        format!(in alloc; "-{length}")
    } else {
        length_text(alloc, end - start)
    }
}
