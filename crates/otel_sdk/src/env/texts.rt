//! Reads the texts of environment variables.
ghost use Rattle.std.specs.Prelude.{◌≡◌, ◌++◌, IfOk, OnOk};
ghost use Rattle.otel_sdk.specs.EnvTexts as spec;
ghost use Rattle.otel_sdk.specs.EnvTexts.{variables_of};

use super::warning::{EnvWarning, Instead, warn};
use otel_base::cut_blanks;
use std::alloc::{AllocError, Global};

/// Returns the text of the first variable of the name, without the blanks at its ends, or an empty
/// text if it isn't set.
pub(super) fn text_of<'a>(vars: &'a [(String, String)], name: &str) -> &'a str
    ensures { result.now ≡ spec.text_of name.now (variables_of vars.now) }
{
    for var in vars {
        if var.0.as_str() == name {
            return cut_blanks(var.1.as_str());
        }
    }
    ""
}

/// The maximum length of a URL and of a list of headers, in bytes. With a signal's path added, such
/// a URL still is one, and such a list has no more headers than a map holds.
const MAX_LEN: usize = 65_000;

/// Returns whether the text is longer than a URL or a list of headers may be.
pub(super) fn is_long(text: &str) -> bool
    ensures { result ≡ spec.is_long text.now }
{
    text.len() > MAX_LEN
}

/// Returns the text, or an empty one if it is longer than a list of headers may be.
pub(super) fn short(text: &str) -> &str
    ensures { result.now ≡ spec.short text.now }
{
    if is_long(text) { "" } else { text }
}

/// Returns whether the text is the name, in any case.
pub(super) fn is_named(text: &str, name: &str) -> bool
    ensures { result ≡ spec.is_named text.now name.now }
{
    text.eq_ignore_ascii_case(name)
}

/// Returns whether the text has only ASCII digits.
fn has_digits(text: &str) -> bool
    ensures { result ≡ spec.has_digits text.now }
{
    text.bytes().all(|byte| byte.is_ascii_digit())
}

/// Returns the number that the text denotes by ASCII digits, if it is at least `least`.
pub(super) fn number(text: &str, least: u32) -> Option<u32>
    ensures { result ≡ spec.number least text.now }
{
    // `parse` accepts a sign.
    if !has_digits(text) {
        return None;
    }
    match text.parse::<u32>() {
        Ok(number) => { if number >= least { Some(number) } else { None } }
        Err(_) => None,
    }
}

/// Returns the number of the variable, or the default with a warning if the text isn't empty.
///
/// # Errors
///
/// `AllocError` if out of memory.
pub(super) fn number_or(
    alloc: Global,
    vars: &[(String, String)],
    warnings: &mut Vec<EnvWarning>,
    name: &'static str,
    least: u32,
    default: u32,
) -> Result<u32, AllocError>
    ensures number { IfOk result (λ n. n
        ≡ spec.number_or name.now least default (variables_of vars.now)) }
    ensures warnings { OnOk result (warnings.new.items ≡ warnings.old.items
        ++ spec.number_warnings name.now least default (variables_of vars.now)) }
{
    let text = text_of(vars, name);
    let number = number(text, least);
    let instead = Instead::Number(u64::from(default));
    warn(alloc, warnings, number.is_some(), name, text, instead)?;
    Ok(number.unwrap_or(default))
}

/// Returns the limit that the variable sets, or the default with a warning if the text isn't empty.
///
/// # Errors
///
/// `AllocError` if out of memory.
pub(super) fn limit_or(
    alloc: Global,
    vars: &[(String, String)],
    warnings: &mut Vec<EnvWarning>,
    name: &'static str,
    default: Option<u32>,
) -> Result<Option<u32>, AllocError>
    ensures limit { IfOk result (λ limit. limit
        ≡ spec.limit_or name.now default (variables_of vars.now)) }
    ensures warnings { OnOk result (warnings.new.items ≡ warnings.old.items
        ++ spec.limit_warnings name.now default (variables_of vars.now)) }
{
    let text = text_of(vars, name);
    let number = number(text, 0);
    let instead = match default {
        Some(limit) => Instead::Number(u64::from(limit)),
        None => Instead::NoLimit,
    };
    warn(alloc, warnings, number.is_some(), name, text, instead)?;
    Ok(number.or(default))
}
