//! The meaning of a collector's answer for the request.
ghost use Rattle.std.specs.Prelude.{◌≡◌, IfSome, MatchOption};
ghost use Rattle.http.specs.Response.{head_of};
ghost use Rattle.otel_otlp.specs.HttpFate.{IsWaitOf, IsAskedWait, IsAgain, IsFate, IsFateOf};
ghost use Rattle.otel_otlp.specs.HttpStatus.{class_of};

use crate::otlp_http::client::HttpError;
use crate::otlp_http::response::{Partial, message_of, read_partial};
use crate::otlp_http::status::{StatusClass, class_of, wait_of};
use http::{HeaderValue, Response};
use std::alloc::{AllocError, Global};

/// Why a request is to be sent again.
#[derive(Debug, Drop)]
pub enum Reason {
    /// The collector has answered with this status.
    Answered(u16),
    /// No response came, for this reason.
    NoResponse(HttpError),
}

/// A request that is to be sent again.
#[derive(Debug, Drop)]
pub struct Refusal {
    /// Why.
    pub reason: Reason,
    /// The wait in seconds that the collector asked for.
    pub wait: Option<u64>,
}

/// The meaning of an answer.
#[derive(Drop)]
pub enum Fate {
    /// The collector has taken the request. `None` if the body couldn't be read; an error if out of
    /// memory.
    Taken(Result<Option<Partial>, AllocError>),
    /// The request is to be sent again.
    Stays(Refusal),
    /// The request is never to be sent again. The collector's message, if there is one; an error if
    /// out of memory.
    GivenUp(Result<Option<String>, AllocError>),
}

/// Returns the wait in seconds that the value asks for.
fn wait_of_value(value: &HeaderValue, now: u64) -> Option<u64>
    ensures { IsWaitOf now value.now result }
{
    match value.to_str() {
        Ok(text) => wait_of(text, now),
        Err(_) => None,
    }
}

/// Returns the wait in seconds that the response asks for.
fn asked_wait(response: &Response<Vec<u8>>, now: u64) -> Option<u64>
    ensures { IsAskedWait now response.now result }
{
    match response.headers().get("retry-after") {
        Some(value) => wait_of_value(value, now),
        None => None,
    }
}

/// Returns the refusal of a response that asks to send again.
fn refusal_of(response: &Response<Vec<u8>>, now: u64) -> Refusal
    ensures { IsAgain now response.now result }
{
    Refusal {
        reason: Reason::Answered(response.status().as_u16()),
        wait: asked_wait(response, now),
    }
}

/// Returns the meaning of the response at this second since 1970. The name is that of the member
/// with the number of rejected items.
fn fate_of_response(alloc: Global, response: &Response<Vec<u8>>, name: &str, now: u64) -> Fate
    ensures { IsFateOf name.now now response.now (class_of (head_of response.now).status) result }
{
    match class_of(response.status()) {
        StatusClass::Taken => Fate::Taken(read_partial(alloc, response.body().as_slice(), name)),
        StatusClass::Again => Fate::Stays(refusal_of(response, now)),
        StatusClass::Never => Fate::GivenUp(message_of(alloc, response.body().as_slice())),
    }
}

/// Returns the meaning of the answer at this second since 1970. The name is that of the member with
/// the number of rejected items.
pub(crate) fn fate_of(
    alloc: Global,
    answer: Result<Response<Vec<u8>>, HttpError>,
    name: &str,
    now: u64,
) -> Fate
    ensures { IsFate name.now now answer result }
{
    match answer {
        Ok(response) => fate_of_response(alloc, &response, name, now),
        Err(error) => Fate::Stays(Refusal {
            reason: Reason::NoResponse(error),
            wait: None,
        }),
    }
}
