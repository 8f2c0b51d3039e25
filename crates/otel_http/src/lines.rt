//! Reads lines `name: value`.
ghost use Rattle.std.specs.Prelude.{◌≡◌, ◌↔◌, IsTrue, IsErr, IsErrOf, IfOk, OnErr, IfSome, IsSome};
ghost use Rattle.std.specs.Prelude.{false};
ghost use Rattle.http_header.specs.FieldValue.{plain_value};
ghost use Rattle.http_header.specs.HeaderMap.{RefusesAppend};
ghost use Rattle.otel_http.specs.Lines as spec;
ghost use Rattle.otel_http.specs.Lines.{IsHeaderLine};

use http_header::{
    HeaderMap, HeaderMapError, HeaderName, HeaderNameError, HeaderValue, HeaderValueError,
};
use otel_base::cut_blanks;
use std::alloc::{AllocError, Global};

/// Returns the name and the value of the line's header, if it is one.
///
/// # Errors
///
/// `AllocError` if out of memory.
fn header(alloc: Global, line: &str) -> Result<Option<(HeaderName, HeaderValue)>, AllocError>
    ensures is_header { IfOk result (λ found. IsSome found ↔ IsHeaderLine line.now) }
    ensures name { IfOk result (λ found. IfSome found (λ h. h.0 ≡ spec.line_name line.now)) }
    ensures value { IfOk result (λ found. IfSome found
        (λ h. h.1 ≡ plain_value (spec.value_part line.now))) }
{
    let Some((name, value)) = line.split_once(':') else {
        return Ok(None);
    };
    let name = match HeaderName::from_bytes(alloc, name.as_bytes()) {
        Ok(name) => name,
        Err(HeaderNameError::Invalid) => return Ok(None),
        Err(HeaderNameError::OutOfMemory) => return Err(AllocError),
    };
    match HeaderValue::from_str(alloc, cut_blanks(value)) {
        Ok(value) => Ok(Some((name, value))),
        Err(HeaderValueError::Invalid) => Ok(None),
        Err(HeaderValueError::OutOfMemory) => Err(AllocError),
    }
}

/// Adds the header of a line `name: value`, after those of its name, and returns `true`. A name is
/// read in any case, and blanks around the value are cut. If the line has no colon, or if its parts
/// aren't the name and the value of a header (RFC 9110, sections 5.1 and 5.5), adds nothing and
/// returns `false`. Not in the Rust crate.
///
/// ```
/// let is_header = add_header_line(alloc, &mut headers, "baggage: a=1")?;
/// ```
///
/// # Errors
///
/// `MaxSizeReached` if the headers are full, and `OutOfMemory`. The headers are unchanged.
pub fn add_header_line(
    alloc: Global,
    headers: &mut HeaderMap,
    line: &str,
) -> Result<bool, HeaderMapError>
    ensures is_header { IfOk result (λ added. IsTrue added ↔ IsHeaderLine line.now) }
    ensures added { IfOk result (λ added. IsTrue added
        → headers.new ≡ spec.with_line line.now headers.old) }
    ensures ignored { IfOk result (λ added. added ≡ false → headers.new ≡ headers.old) }
    ensures full { IsErrOf result HeaderMapError.MaxSizeReached
        → RefusesAppend headers.old (spec.line_name line.now) }
    ensures refuses { IsHeaderLine line.now
        → RefusesAppend headers.old (spec.line_name line.now) → IsErr result }
    ensures err { OnErr result (headers.new ≡ headers.old) }
{
    match header(alloc, line)? {
        Some((name, value)) => {
            headers.append(name, value)?;
            Ok(true)
        }
        None => Ok(false),
    }
}
