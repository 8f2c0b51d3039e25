//! The text of a request.
ghost use Rattle.std.specs.Prelude.{◌≡◌, ◌∷◌, ◌≤◌, length, codes, IfOk, OnOk, IfErr, string_bytes};
ghost use Rattle.http_uri.specs.ByteClasses.{index_after_last, at_sign};
ghost use Rattle.http.specs.Request.{head_of, body_of};
ghost use Rattle.http1.specs.Head.{pairs};
ghost use Rattle.http1.specs.Framing.{method_kind};
ghost use Rattle.http1.specs.Client.{new_client, reading};
ghost use Rattle.http1.specs.declared.conn.Reading.TheVariants as Reading;
ghost use Rattle.http1_typed.specs.Parts.{fields_of};
ghost use Rattle.otel_otlp.specs.StreamClient.{limits, host_of, origin_form, request_text, asking};
ghost use Rattle.otel_otlp.specs.StreamClient.{IsWritable, CannotWrite, refusal_of};

use crate::otlp_http::client::HttpError;
use http::{HeaderMap, Request, Uri};
use http1::{BodySize, Client, Header, WriteError};
use http1_typed::header_list;
use std::alloc::{AllocError, Global};

// Returns the index after the last `@`, or 0.
fn user_len(authority: &[u8]) -> usize
    ensures value { result ≡ index_after_last at_sign authority.now }
    ensures within { result ≤ length authority.now }
{
    let mut len = authority.len();
    while len > 0 && authority[len - 1] != b'@' {
        len -= 1;
    }
    len
}

// Returns the host with its port, empty if the URI has none.
fn host(uri: &Uri) -> &[u8]
    ensures { result.now ≡ host_of uri.now }
{
    match uri.authority() {
        Some(authority) => {
            let text = authority.as_str().as_bytes();
            &text[user_len(text)..]
        }
        None => b"",
    }
}

// Returns the path and the query.
fn target(alloc: Global, uri: &Uri) -> Result<String, AllocError>
    ensures { IfOk result (λ text. string_bytes text ≡ origin_form uri.now) }
{
    let mut text = String::from_str(alloc, uri.path())?;
    if let Some(query) = uri.query() {
        text.push('?')?;
        text.push_str(query)?;
    }
    Ok(text)
}

// Returns the headers of the request.
fn headers<'a>(
    alloc: Global,
    host: &'a [u8],
    own: &'a HeaderMap,
) -> Result<Vec<Header<'a>>, AllocError>
    ensures { IfOk result (λ list. pairs list.items
        ≡ (codes "host", host.now) ∷ (codes "connection", codes "keep-alive")
        ∷ fields_of own.now) }
{
    let mut list = Vec::with_capacity(alloc, 2)?;
    list.push(Header {
        name: b"host",
        value: host,
    })?;
    list.push(Header {
        name: b"connection",
        value: b"keep-alive",
    })?;
    list.append(&mut header_list(alloc, own)?)?;
    Ok(list)
}

// Returns the error of a request that can't be written.
fn refusal(error: WriteError) -> HttpError
    ensures { result ≡ refusal_of error }
{
    match error {
        WriteError::OutOfMemory => HttpError::Memory(AllocError),
        _ => HttpError::Unreachable,
    }
}

/// Returns the text of the request, as the connection writes it.
///
/// # Errors
///
/// - `Unreachable` if the request can't be written.
/// - `Memory` if out of memory.
pub(crate) fn write_request(
    alloc: Global,
    connection: &mut Client,
    request: &Request<Vec<u8>>,
) -> Result<Vec<u8>, HttpError>
    requires { connection.old ≡ new_client limits }
    ensures text { IfOk result (λ text. text.items
        ≡ request_text (head_of request.now) (body_of request.now).items) }
    ensures asking { OnOk result (connection.new
        ≡ asking (head_of request.now) (body_of request.now).items) }
    ensures written { OnOk result
        (IsWritable (head_of request.now) (body_of request.now).items) }
    ensures refused { IfErr result
        (CannotWrite (head_of request.now) (body_of request.now).items) }
    ensures waits { OnOk result (reading connection.new ≡ Reading.Head) }
    ensures method { OnOk result (connection.new.method
        ≡ method_kind (head_of request.now).method) }
{
    let mut text = Vec::new(alloc);
    let uri = request.uri();
    let target = target(alloc, uri).map_err(HttpError::Memory)?;
    let headers = headers(alloc, host(uri), request.headers()).map_err(HttpError::Memory)?;
    let body = request.body().as_slice();
    let method = request.method().as_str().as_bytes();
    let size = BodySize::Known(body.len() as u64);
    if let Err(error) = connection.write_request(
        &mut text,
        method,
        target.as_bytes(),
        &headers,
        size,
    ) {
        return Err(refusal(error));
    }
    if let Err(error) = connection.write_data(&mut text, body) {
        return Err(refusal(error));
    }
    if let Err(error) = connection.write_end(&mut text, &[]) {
        return Err(refusal(error));
    }
    Ok(text)
}
