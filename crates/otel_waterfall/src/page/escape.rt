//! Texts in HTML.
ghost use Rattle.std.specs.Prelude.{◌≡◌, ◌++◌, OnOk, string_bytes};
ghost use Rattle.otel_waterfall.specs.Escape as spec;

use crate::name::shown;
use std::alloc::{AllocError, Global};

/// Returns the character as the page shows it: newlines and tabs as they are, others as a terminal
/// shows them.
fn harmless(c: char) -> char
    ensures { result ≡ spec.harmless c }
{
    if c == '\n' || c == '\t' {
        c
    } else {
        shown(false, c)
    }
}

/// Appends a character, escaped.
fn push_char(text: &mut String, c: char) -> Result<(), AllocError>
    ensures { OnOk result (string_bytes text.new ≡ string_bytes text.old ++ spec.char_text c) }
{
    match c {
        '&' => text.push_str("&amp;"),
        '<' => text.push_str("&lt;"),
        '>' => text.push_str("&gt;"),
        '"' => text.push_str("&quot;"),
        '\'' => text.push_str("&#39;"),
        _ => text.push(harmless(c)),
    }
}

/// Appends a text of ours, which is HTML.
///
/// # Errors
///
/// Returns an error if out of memory.
pub(crate) fn push_html(text: &mut String, html: &str) -> Result<(), AllocError>
    ensures { OnOk result (string_bytes text.new ≡ string_bytes text.old ++ html.now) }
{
    text.push_str(html)
}

/// Appends a text that isn't ours, escaped.
///
/// # Errors
///
/// Returns an error if out of memory.
pub(crate) fn push_escaped(text: &mut String, value: &str) -> Result<(), AllocError>
    ensures { OnOk result
        (string_bytes text.new ≡ string_bytes text.old ++ spec.escaped value.now) }
{
    for c in value.chars() {
        push_char(text, c)?;
    }
    Ok(())
}

/// Appends a text that isn't ours, escaped, between two of ours.
///
/// # Errors
///
/// Returns an error if out of memory.
pub(crate) fn push_between(
    text: &mut String,
    before: &str,
    value: &str,
    after: &str,
) -> Result<(), AllocError>
    ensures { OnOk result (string_bytes text.new
        ≡ string_bytes text.old ++ spec.between before.now value.now after.now) }
{
    text.push_str(before)?;
    push_escaped(text, value)?;
    text.push_str(after)
}

/// Appends a name and its value, as a term and its description.
///
/// # Errors
///
/// Returns an error if out of memory.
pub(crate) fn push_field(text: &mut String, name: &str, value: &str) -> Result<(), AllocError>
    ensures { OnOk result
        (string_bytes text.new ≡ string_bytes text.old ++ spec.field name.now value.now) }
{
    push_between(text, "<dt>", name, "</dt>")?;
    push_between(text, "<dd>", value, "</dd>")
}

/// Appends a name and a number, unless that is 0.
///
/// # Errors
///
/// Returns an error if out of memory.
pub(crate) fn push_count(
    alloc: Global,
    text: &mut String,
    name: &str,
    count: u32,
) -> Result<(), AllocError>
    ensures { OnOk result
        (string_bytes text.new ≡ string_bytes text.old ++ spec.count_field name.now count) }
{
    if count == 0 {
        return Ok(());
    }
    let digits = format!(in alloc; "{count}")?;
    push_field(text, name, digits.as_str())
}
