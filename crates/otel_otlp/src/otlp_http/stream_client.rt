//! A client over a reader and a writer, which together carry one connection.
ghost use Rattle.std.specs.Prelude.{◌≡◌, ◌↔◌, ℕ, [], ◌∷◌, ◌++◌, take, false, true};
ghost use Rattle.std.specs.Prelude.{IsTrue, IsErr, IsErrOf, IfOk, IfErr, OnOk, OnErr};
ghost use Rattle.std.specs.Io.KnownBytes.{Appends};
ghost use Rattle.http.specs.Request.{head_of, body_of};
ghost use Rattle.http1.specs.Client.{reading, IsIdle};
ghost use Rattle.http1.specs.Framing.{method_kind};
ghost use Rattle.http1.specs.declared.conn.Reading.TheVariants as Reading;
ghost use Rattle.otel_sdk_base.specs.Writers.{FlushesOnce};
ghost use Rattle.otel_otlp.specs.StreamClient.{initial, request_text, asking, IsRequest};
ghost use Rattle.otel_otlp.specs.StreamClient.{IsWritable, ReadsAnswer, IsWriteError, Fails};
ghost use Rattle.otel_otlp.specs.StreamClient.{IsNoAnswer, IsUnsent};

mod request;
mod source;

use crate::otlp_http::client::{HttpClient, HttpError};
use crate::otlp_http::reader_calls::ReaderCalls;
use crate::otlp_http::stream_client::request::write_request;
use crate::otlp_http::stream_client::source::Source;
use crate::written::{Cause, write_bytes};
use bytes::BytesMut;
use http::{Request, Response};
use http1::{Client, Limits};
use otel_sdk_base::{Accepted, WriterCalls};
use std::alloc::Global;
use std::hash::RandomState;
use std::marker::Model;

/// The most bytes of a response's head.
pub const MAX_HEAD_LEN: usize = 64 * 1024;

/// The most bytes of a response's body.
pub const MAX_BODY_LEN: usize = 4 * 1024 * 1024;

/// The limits of a response, beside its body's.
const LIMITS: Limits = Limits {
    max_head_len: MAX_HEAD_LEN,
    max_extensions_len: 16 * 1024,
    max_trailers_len: 16 * 1024,
};

/// Sends requests over one connection: writes HTTP/1.1 to a writer, and reads the responses from
/// a reader, such as both halves of a socket, or the standard output and input of a program that
/// another one connects. Not in the Rust crates.
///
/// ```
/// let mut client = StreamClient::new(alloc, RandomState::new(&rt)?, reader, writer);
/// let sent = client.send_bytes(&request(alloc)?);
/// ```
///
/// A request is written with `Host`, from its URI, `Connection: keep-alive`, its own headers, and
/// `Content-Length`. It isn't written if its own headers name the host or another length. The
/// URI's scheme isn't looked at. Responses of status 1xx are skipped. The body of the response has
/// a `Content-Length`, is chunked, or ends where the reader ends. An interrupted read or write is
/// tried again.
///
/// After an error, after a response that closes the connection, and if the reader gave bytes past
/// the response, no other request is sent: make a new client, of a new connection.
///
/// Contracts see the requests that it was asked to send, the reader, the writer, the bytes that
/// the reader gave past the last response, and whether another request can be sent.
pub struct StreamClient<R, W> {
    source: Source<R>,
    writer: W,
    is_open: bool,
    sent: Accepted<Request<Vec<u8>>>,
}

// Written out, so that a caller's proof has one call here, and not the drops of all parts.
impl<R: Drop, W: Drop> Drop for StreamClient<R, W> {
    fn drop(self) {
        let StreamClient {
            source: _,
            writer: _,
            is_open: _,
            sent: _,
        } = self;
    }
}

impl<R, W> Model for StreamClient<R, W> {
    ghost use Rattle.std.specs.Prelude.{flat_map};
    ghost use Rattle.otel_otlp.specs.StreamClient.{Streaming};

    ghost Value = { Streaming R W };

    ghost view = { λ c. record {
      sent = flat_map (λ batch. batch) c.sent.batches;
      reader = c.source.reader;
      writer = c.writer;
      unread = c.source.unread.items;
      is_open = c.is_open;
    } };
}

impl<R, W> StreamClient<R, W> {
    /// Creates a client of a new connection. The keys are for the maps of headers, whose names
    /// the server chooses: `RandomState::new(&rt)`.
    pub fn new(alloc: Global, keys: RandomState, reader: R, writer: W) -> StreamClient<R, W>
        ensures { result ≡ initial reader writer }
    {
        let unread = BytesMut::new(alloc);
        StreamClient {
            source: Source {
                reader,
                unread,
                alloc,
                keys,
            },
            writer,
            is_open: true,
            sent: Accepted::new(),
        }
    }

    /// Returns `true` if another request can be sent.
    pub fn is_open(&self) -> bool
        ensures { result ≡ self.now.is_open }
    {
        self.is_open
    }

    /// Returns the reader and the writer.
    pub fn get_ref(&self) -> (&R, &W)
        ensures reader { result.0.now ≡ self.now.reader }
        ensures writer { result.1.now ≡ self.now.writer }
    {
        (&self.source.reader, &self.writer)
    }
}

// Writes the text, and flushes the writer.
fn send<W: WriterCalls>(writer: &mut W, text: &[u8]) -> Result<(), HttpError>
    ensures part { (count : ℕ) × Appends (W.contents writer.old) (W.contents writer.new)
        (take count text.now) }
    ensures whole { OnOk result (Appends (W.contents writer.old) (W.contents writer.new) text.now) }
    ensures flushed { OnOk result (FlushesOnce W.flushed true writer.old writer.new) }
    ensures failed { IfErr result (IsUnsent W.may_write W.flushed writer.old writer.new) }
{
    if let Err(cut) = write_bytes(writer, text) {
        return match cut.cause {
            Cause::Failed(error) => Err(HttpError::Io(error)),
            Cause::TookNone => Err(HttpError::Unreachable),
        };
    }
    match writer.flush_all() {
        true => Ok(()),
        false => Err(HttpError::Unreachable),
    }
}

// Writes the request, and flushes the writer. Returns the connection, which waits for the response.
fn write<W: WriterCalls>(
    alloc: Global,
    writer: &mut W,
    request: &Request<Vec<u8>>,
) -> Result<Client, HttpError>
    ensures part { (count : ℕ) × Appends (W.contents writer.old) (W.contents writer.new)
        (take count (request_text (head_of request.now) (body_of request.now).items)) }
    ensures whole { OnOk result (Appends (W.contents writer.old) (W.contents writer.new)
        (request_text (head_of request.now) (body_of request.now).items)) }
    ensures flushed { OnOk result (FlushesOnce W.flushed true writer.old writer.new) }
    ensures written { OnOk result
        (IsWritable (head_of request.now) (body_of request.now).items) }
    ensures failed { IfErr result (IsWriteError W.may_write W.flushed
        (head_of request.now) (body_of request.now).items writer.old writer.new) }
    ensures asking { IfOk result (λ connection. connection
        ≡ asking (head_of request.now) (body_of request.now).items) }
    ensures waits { IfOk result (λ connection. reading connection ≡ Reading.Head) }
    ensures method { IfOk result (λ connection. connection.method
        ≡ method_kind (head_of request.now).method) }
{
    let mut connection = Client::new(LIMITS);
    let text = write_request(alloc, &mut connection, request)?;
    match send(writer, &text) {
        Ok(()) => Ok(connection),
        Err(error) => Err(error),
    }
}

// Returns `true` if another request can be sent: the connection is kept, and no byte is unread.
fn is_free(connection: &Client, unread: &BytesMut) -> bool
    ensures { IsTrue result ↔ (IsIdle connection.now × (unread.now.items ≡ [])) }
{
    connection.is_idle() && unread.is_empty()
}

impl<R: ReaderCalls + Drop, W: WriterCalls + Drop> HttpClient for StreamClient<R, W> {
    ghost sent = { λ c. c.sent };

    /// Sends the request, flushes the writer, and reads the response.
    ///
    /// # Errors
    ///
    /// After each, no other request is sent.
    ///
    /// - `Io` with the error of the writer or the reader if one failed.
    /// - `Unreachable` if no other request can be sent or this one can't be written, if the writer
    ///   took no byte or wasn't flushed, or if the reader ended before the response.
    /// - `Malformed` if the bytes are no response: also if its head has more than 64 KiB or 128
    ///   headers, its body more than 4 MiB, or the reader ended in it.
    /// - `Memory` if out of memory.
    fn send_bytes(&mut self, request: &Request<Vec<u8>>) -> Result<Response<Vec<u8>>, HttpError>
        ensures sent { self.new.sent ≡ self.old.sent ++ request.now ∷ [] }
        ensures part { (count : ℕ)
            × Appends (W.contents self.old.writer) (W.contents self.new.writer)
            (take count (request_text (head_of request.now) (body_of request.now).items)) }
        ensures whole { OnOk result
            (Appends (W.contents self.old.writer) (W.contents self.new.writer)
            (request_text (head_of request.now) (body_of request.now).items)) }
        ensures flushed { OnOk result
            (FlushesOnce W.flushed true self.old.writer self.new.writer) }
        ensures message { OnOk result
            (IsRequest (head_of request.now) (body_of request.now).items
            (request_text (head_of request.now) (body_of request.now).items)) }
        ensures answer { IfOk result (λ answer.
            ReadsAnswer R.remaining (head_of request.now) (body_of request.now).items
            self.old answer self.new) }
        ensures failed { IsTrue self.old.is_open → IfErr result
            (Fails W.contents W.may_write W.flushed R.may_read
            (head_of request.now) (body_of request.now).items self.old self.new) }
        ensures malformed { IsTrue self.old.is_open → IfErr result
            (IsNoAnswer R.remaining R.may_read (head_of request.now) (body_of request.now).items
            self.old.reader self.old.unread self.new.reader) }
        ensures closed { OnErr result (self.new.is_open ≡ false) }
        ensures quiet { IsTrue self.new.is_open → self.new.unread ≡ [] }
        ensures refused { self.old.is_open ≡ false → IsErr result
            × (self.new ≡ record self.old { sent = self.new.sent }) }
        ensures unreachable { self.old.is_open ≡ false
            → IsErrOf result HttpError.Unreachable }
    {
        self.sent = self.sent.and_one(request);
        if !self.is_open {
            return Err(HttpError::Unreachable);
        }
        self.is_open = false;
        let mut connection = write(self.source.alloc, &mut self.writer, request)?;
        let response = self.source.read_response(&mut connection)?;
        self.is_open = is_free(&connection, &self.source.unread);
        Ok(response)
    }
}
