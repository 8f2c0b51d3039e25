//! Statuses of a collector's responses, and when to try again.
ghost use Rattle.std.specs.Prelude.{◌≡◌, ◌-◌, ◌<◌, ◌^◌, Some, IfOk, option_map};
ghost use Rattle.std.specs.Str.Parse.{without_leading_plus, IsNumeral, digits_value};
ghost use Rattle.httpdate.specs.Date.{parse_secs};
ghost use Rattle.otel_otlp.specs.HttpStatus as spec;

use http::{HeaderValue, StatusCode};
use httpdate::HttpDate;

/// The meaning of a response's status (OpenTelemetry protocol, "OTLP/HTTP Response").
#[derive(Clone, Copy, Debug, PartialEq, Eq)]
pub enum StatusClass {
    /// The collector has taken the request.
    Taken,
    /// The request is to be sent again.
    Again,
    /// The request is never to be sent again.
    Never,
}

/// Returns the meaning of the status.
pub(crate) fn class_of(status: StatusCode) -> StatusClass
    ensures { result ≡ spec.class_of status }
{
    let code = status.as_u16();
    if code >= 200 && code < 300 {
        return StatusClass::Taken;
    }
    if code == 429 || code == 502 || code == 503 || code == 504 {
        return StatusClass::Again;
    }
    StatusClass::Never
}

/// Returns the wait from the date to the moment `now`, both in seconds since 1970. It is 0 if the
/// date has passed, and `None` if the text is no date.
fn wait_until(text: &str, now: u64) -> Option<u64>
    ensures { result ≡ option_map (λ secs. secs - now) (parse_secs text.now) }
{
    match HttpDate::parse_ascii(text.as_bytes()) {
        Ok(date) => Some(date.unix_secs().saturating_sub(now)),
        Err(_) => None,
    }
}

/// Returns the wait in seconds that the text of a `Retry-After` asks for at the moment `now`, in
/// seconds since 1970: a number of seconds or a date (RFC 9110, section 10.2.3).
pub(crate) fn wait_of(text: &str, now: u64) -> Option<u64>
    ensures number { spec.IsSeconds text.now
        → result ≡ Some (digits_value 10 (without_leading_plus text.now)) }
    ensures date { ¬ (spec.IsSeconds text.now)
        → result ≡ option_map (λ secs. secs - now) (parse_secs text.now) }
{
    match text.parse::<u64>() {
        Ok(seconds) => Some(seconds),
        Err(_) => wait_until(text, now),
    }
}
