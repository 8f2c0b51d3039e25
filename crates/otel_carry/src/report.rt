//! Writes the report of a run, line by line.
ghost use Rattle.std.specs.Prelude.{OnOk};
ghost use Rattle.std.specs.Io.KnownBytes.{Appends};
ghost use Rattle.otel_carry.specs.Report.{AreLinesOf, Writes, current_line, line_at, lines_at};
ghost use Rattle.otel_carry.specs.Report.{outcome_line, outcome_lines};

use crate::name_member::name_of;
use opentelemetry::Context;
use opentelemetry::carry::AttachOutcome;
use opentelemetry::propagation::Extractor;
use std::alloc::Global;
use std::collections::HashMap;
use std::io::{self, Write};

/// Writes a line for each attach, with its number and its outcome.
pub fn write_outcomes<W: Write>(output: &mut W, outcomes: &[AttachOutcome]) -> io::Result<()>
    ensures { OnOk result (Appends (W.contents output.old) (W.contents output.new)
        (outcome_lines outcomes.now)) }
{
    for (number, outcome) in outcomes.iter().enumerate() {
        write_outcome(output, number, *outcome)?;
    }
    Ok(())
}

/// Writes the line of the attach with this number.
fn write_outcome<W: Write>(output: &mut W, number: usize, outcome: AttachOutcome) -> io::Result<()>
    ensures { OnOk result (Appends (W.contents output.old) (W.contents output.new)
        (outcome_line number outcome)) }
{
    match outcome {
        AttachOutcome::Attached(position) => writeln!(
            output,
            "attach {number}: position {position}"
        ),
        AttachOutcome::Full => writeln!(output, "attach {number}: full"),
        AttachOutcome::NoMemory => writeln!(output, "attach {number}: no memory"),
    }
}

/// Writes the name of the current context, or `base` if it has none.
pub fn write_current<W: Write>(output: &mut W, context: &Context) -> io::Result<()>
    ensures { OnOk result (Appends (W.contents output.old) (W.contents output.new)
        (current_line context.now)) }
{
    let name = name_of(context).unwrap_or("base");
    writeln!(output, "current: {name}")
}

/// Writes a line `key=value` for each of the texts, in ascending order of the keys.
pub fn write_texts<W: Write>(
    alloc: Global,
    output: &mut W,
    texts: &HashMap<String, String>,
) -> io::Result<()>
    ensures { OnOk result (Writes (AreLinesOf texts.now)
        (W.contents output.old) (W.contents output.new)) }
{
    let keys = Extractor::keys(texts, alloc)?;
    write_texts_at(output, texts, &keys)
}

/// Writes the lines of the texts at these keys, in order.
fn write_texts_at<W: Write>(
    output: &mut W,
    texts: &HashMap<String, String>,
    keys: &[&str],
) -> io::Result<()>
    ensures { OnOk result (Appends (W.contents output.old) (W.contents output.new)
        (lines_at texts.now keys.now)) }
{
    for key in keys {
        write_text_at(output, texts, key)?;
    }
    Ok(())
}

/// Writes the line of the text at this key, if there is one.
fn write_text_at<W: Write>(
    output: &mut W,
    texts: &HashMap<String, String>,
    key: &str,
) -> io::Result<()>
    ensures { OnOk result (Appends (W.contents output.old) (W.contents output.new)
        (line_at texts.now key.now)) }
{
    match texts.get(key) {
        Some(value) => writeln!(output, "{key}={value}"),
        None => Ok(()),
    }
}
