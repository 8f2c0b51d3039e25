//! Reads a response.
ghost use Rattle.std.specs.Prelude.{◌≡◌, ◌≢◌, ℕ, List, ◌++◌, ◌≤◌, length, drop, [], Ok};
ghost use Rattle.std.specs.Prelude.{IfOk, IfErr, OnOk, IsTrue, is_some, ◌↔◌, ◌<◌, false};
ghost use Rattle.httparse.specs.Spans.{IsResponseWithin};
ghost use Rattle.http1.specs.Client.{reading, writing, IsIdle};
ghost use Rattle.http1.specs.Conn.{awaits_head};
ghost use Rattle.http1.specs.declared.conn.Reading.TheVariants as Reading;
ghost use Rattle.http1_typed.specs.Parts.{IsResponseParts};
ghost use Rattle.otel_otlp.specs.StreamClient.{Gains, Reads, StepsToHead, FindsHead, Grows};
ghost use Rattle.otel_otlp.specs.StreamClient.{FindsBody, Replies, StaysOpen, is_kept};
ghost use Rattle.otel_otlp.specs.StreamClient.{max_body_len, max_headers};
ghost use Rattle.otel_otlp.specs.StreamClient.{HasAnswered, IsReadError, HasBadParts, no_parts};
ghost use Rattle.otel_otlp.specs.StreamClient.{IsOfBytes, IsReaders};
ghost use Rattle.otel_otlp.specs.StreamClient.{Breaks, Comes, GoesOn};
ghost use Rattle.otel_otlp.specs.StreamClient.{LacksMore, LacksAnswer, ClosesAtEnd};

use crate::otlp_http::client::HttpError;
use crate::otlp_http::reader_calls::ReaderCalls;
use crate::otlp_http::stream_client::MAX_BODY_LEN;
use bytes::BytesMut;
use http::Response;
use http::response::Parts;
use http1::{Client, Event};
use http1_typed::response_parts;
use httparse::spans::{EMPTY_HEADER_SPAN, HeaderSpan, ResponseSpans};
use std::alloc::{AllocError, Global};
use std::hash::RandomState;
use std::io::ErrorKind;

/// The most headers, and the most trailers, of a response.
const MAX_HEADERS: usize = 128;

/// The number of bytes for which a read has room.
const READ_SIZE: usize = 16 * 1024;

/// A reader, and the bytes that it gave and that aren't used yet.
#[derive(Drop)]
pub(crate) struct Source<R> {
    /// The reader.
    pub reader: R,
    /// The bytes.
    pub unread: BytesMut,
    /// For the responses.
    pub alloc: Global,
    /// For the maps of headers, whose names the server chooses.
    pub keys: RandomState,
}

// Returns the error of a head whose parts aren't those of a response.
fn no_parts(error: http::Error) -> HttpError
    ensures { result ≡ no_parts error }
{
    match error {
        http::Error::OutOfMemory => HttpError::Memory(AllocError),
        _ => HttpError::Malformed,
    }
}

// Returns the parts of the head that the connection found, and drops its bytes.
fn take_head(
    alloc: Global,
    keys: RandomState,
    unread: &mut BytesMut,
    head: &ResponseSpans,
    spans: &[HeaderSpan],
) -> Result<Parts, HttpError>
    requires { IsResponseWithin unread.old.items spans.now head.now }
    ensures parts { IfOk result (IsResponseParts unread.old.items spans.now head.now) }
    ensures rest { OnOk result (unread.new.items ≡ drop head.now.len unread.old.items) }
    ensures failed { IfErr result IsOfBytes }
    ensures malformed { IfErr result (λ error. error ≡ HttpError.Malformed
        → HasBadParts unread.old.items spans.now head.now) }
{
    let Ok(text) = unread.freeze_to(head.len) else {
        return Err(HttpError::Memory(AllocError));
    };
    match response_parts(alloc, keys, &text, head, spans) {
        Ok(parts) => Ok(parts),
        Err(error) => Err(no_parts(error)),
    }
}

// Appends the piece to the body, if the body stays within its limit.
fn add_piece(body: &mut Vec<u8>, piece: &[u8]) -> Result<(), HttpError>
    requires { length body.old.items ≤ max_body_len }
    ensures added { OnOk result (body.new.items ≡ body.old.items ++ piece.now) }
    ensures within { OnOk result (length body.new.items ≤ max_body_len) }
    ensures failed { IfErr result IsOfBytes }
    ensures malformed { IfErr result (λ error. error ≡ HttpError.Malformed
        → max_body_len < length (body.old.items ++ piece.now)) }
{
    if piece.len() > MAX_BODY_LEN - body.len() {
        return Err(HttpError::Malformed);
    }
    body.extend_from_slice(piece).map_err(HttpError::Memory)
}

impl<R: ReaderCalls> Source<R> {
    // Reads once, and again if the read was interrupted. Returns the number of bytes, 0 at the end
    // of the stream.
    fn fill(&mut self) -> Result<usize, HttpError>
        ensures gains { IfOk result (λ count. (came : List ℕ) × (length came ≡ count)
            × Gains R.remaining self.old came self.new) }
        ensures answered { IfOk result (λ count. R.may_read (Ok count)) }
        ensures failed { IfErr result (IsReaders R.may_read) }
        ensures no_bytes { IfErr result (λ error. error ≢ HttpError.Malformed) }
    {
        self.unread.reserve(READ_SIZE).map_err(HttpError::Memory)?;
        for _ in 0..u64::MAX {
            match self.reader.read_into(&mut self.unread) {
                Ok(count) => return Ok(count),
                Err(error) => match error.kind() {
                    ErrorKind::Interrupted => {}
                    _ => return Err(HttpError::Io(error)),
                },
            }
        }
        Err(HttpError::Unreachable)
    }

    // Reads more of a head.
    fn fill_head(&mut self) -> Result<(), HttpError>
        ensures gains { OnOk result
            ((came : List ℕ) × Gains R.remaining self.old came self.new) }
        ensures answered { OnOk result (HasAnswered R.may_read) }
        ensures failed { IfErr result (IsReadError R.may_read []) }
        ensures ended { IfErr result (λ error. error ≡ HttpError.Malformed
            → R.may_read (Ok 0) × Gains R.remaining self.old [] self.new) }
        ensures part { IfErr result (λ error. error ≡ HttpError.Malformed
            → self.old.unread.items ≢ []) }
    {
        if self.fill()? > 0 {
            return Ok(());
        }
        if self.unread.is_empty() {
            return Err(HttpError::Unreachable);
        }
        Err(HttpError::Malformed)
    }

    // Reads the first bytes of a response, unless there are unread ones.
    fn start(&mut self) -> Result<(), HttpError>
        ensures gains { OnOk result
            ((came : List ℕ) × Gains R.remaining self.old came self.new) }
        ensures answered { OnOk result (self.old.unread.items ≡ [] → HasAnswered R.may_read) }
        ensures failed { IfErr result (IsReadError R.may_read self.old.unread.items) }
        ensures no_bytes { IfErr result (λ error. error ≢ HttpError.Malformed) }
    {
        if self.unread.is_empty() {
            return self.fill_head();
        }
        Ok(())
    }

    // Takes a step towards a head. Returns it once it is there.
    fn step_head(
        &mut self,
        connection: &mut Client,
        spans: &mut [HeaderSpan],
    ) -> Result<Option<Parts>, HttpError>
        requires head { reading connection.old ≡ Reading.Head }
        requires asked { awaits_head (writing connection.old) ≡ false }
        requires room { length spans.old ≡ max_headers }
        ensures steps { IfOk result (λ found. Reads R.remaining self.old self.new
            (λ given left. StepsToHead connection.old given connection.new left found)) }
        ensures comes { OnOk result (Reads R.remaining self.old self.new
            (λ given left. Comes connection.old given connection.new left [])) }
        ensures begun { IfOk result (λ found. IsTrue (is_some found)
            → reading connection.new ≢ Reading.Head) }
        ensures failed { IfErr result (IsReaders R.may_read) }
        ensures malformed { IfErr result (Breaks R.remaining self.old self.new
            (LacksAnswer R.may_read connection.old)) }
    {
        let Ok(read) = connection.read(self.unread.as_slice(), spans) else {
            return Err(HttpError::Malformed);
        };
        match read.event {
            Event::Head(head) => {
                let parts = take_head(self.alloc, self.keys, &mut self.unread, &head, spans)?;
                Ok(Some(parts))
            }
            Event::Informational(_) => {
                self.unread.advance(read.consumed);
                Ok(None)
            }
            Event::NeedMore => {
                self.fill_head()?;
                Ok(None)
            }
            _ => Err(HttpError::Malformed),
        }
    }

    /// Reads the head of a response. Skips responses of status 1xx.
    ///
    /// # Errors
    ///
    /// - `Io` with the reader's own error if it failed, and `Unreachable` if it ended before the
    ///   first byte.
    /// - `Malformed` if the bytes are no head within the limits, or the reader ended in it.
    /// - `Memory` if out of memory.
    pub(crate) fn read_head(&mut self, connection: &mut Client) -> Result<Parts, HttpError>
        requires head { reading connection.old ≡ Reading.Head }
        requires asked { awaits_head (writing connection.old) ≡ false }
        ensures head { IfOk result (λ parts. Reads R.remaining self.old self.new
            (λ given left. FindsHead connection.old given connection.new left parts)) }
        ensures comes { OnOk result (Reads R.remaining self.old self.new
            (λ given left. Comes connection.old given connection.new left [])) }
        ensures begun { OnOk result (reading connection.new ≢ Reading.Head) }
        ensures failed { IfErr result (IsReaders R.may_read) }
        ensures malformed { IfErr result (Breaks R.remaining self.old self.new
            (LacksAnswer R.may_read connection.old)) }
    {
        let mut spans = [EMPTY_HEADER_SPAN; MAX_HEADERS];
        for _ in 0..u64::MAX {
            if let Some(parts) = self.step_head(connection, &mut spans)? {
                return Ok(parts);
            }
        }
        // The steps can't be counted any more.
        Err(HttpError::Memory(AllocError))
    }

    // Takes a step in a body. Returns `true` if the body has ended.
    fn step_body(
        &mut self,
        connection: &mut Client,
        body: &mut Vec<u8>,
        spans: &mut [HeaderSpan],
    ) -> Result<bool, HttpError>
        requires within { length body.old.items ≤ max_body_len }
        requires closes { ClosesAtEnd connection.old }
        requires begun { reading connection.old ≢ Reading.Head }
        requires room { length spans.old ≡ max_headers }
        ensures within { OnOk result (length body.new.items ≤ max_body_len) }
        ensures steps { IfOk result (λ ended. Reads R.remaining self.old self.new (λ given left.
            Grows body.old.items body.new.items connection.old given connection.new left ended)) }
        ensures keeps { IfOk result (λ ended. StaysOpen ended connection.old connection.new) }
        ensures comes { IfOk result (λ ended. ended ≡ false → GoesOn R.remaining self.old self.new
            body.old.items body.new.items connection.old connection.new) }
        ensures failed { IfErr result (IsReaders R.may_read) }
        ensures malformed { IfErr result (Breaks R.remaining self.old self.new
            (LacksMore R.may_read body.old.items connection.old)) }
    {
        let Ok(read) = connection.read(self.unread.as_slice(), spans) else {
            return Err(HttpError::Malformed);
        };
        match read.event {
            Event::Data(piece) => {
                add_piece(body, piece.of(self.unread.as_slice()))?;
                self.unread.advance(read.consumed);
                Ok(false)
            }
            Event::End(_) => {
                self.unread.advance(read.consumed);
                Ok(true)
            }
            Event::NeedMore => {
                self.unread.advance(read.consumed);
                if self.fill()? > 0 {
                    return Ok(false);
                }
                match connection.read_eof() {
                    Ok(Event::End(_)) => Ok(true),
                    Ok(_) => Err(HttpError::Malformed),
                    Err(_) => Err(HttpError::Malformed),
                }
            }
            _ => Err(HttpError::Malformed),
        }
    }

    /// Reads the body of the response whose head was read.
    ///
    /// # Errors
    ///
    /// - `Io` with the reader's own error if it failed.
    /// - `Malformed` if the bytes are no body within the limits, or the reader ended in it.
    /// - `Memory` if out of memory.
    pub(crate) fn read_body(&mut self, connection: &mut Client) -> Result<Vec<u8>, HttpError>
        requires closes { ClosesAtEnd connection.old }
        requires begun { reading connection.old ≢ Reading.Head }
        ensures within { IfOk result (λ body. length body.items ≤ max_body_len) }
        ensures body { IfOk result (λ body. Reads R.remaining self.old self.new
            (λ given left. FindsBody connection.old given body.items left)) }
        ensures keeps { OnOk result
            (IsIdle connection.new ↔ IsTrue (is_kept connection.old)) }
        ensures failed { IfErr result (IsReaders R.may_read) }
        ensures malformed { IfErr result (Breaks R.remaining self.old self.new
            (LacksAnswer R.may_read connection.old)) }
    {
        let mut body = Vec::new(self.alloc);
        let mut spans = [EMPTY_HEADER_SPAN; MAX_HEADERS];
        for _ in 0..u64::MAX {
            if self.step_body(connection, &mut body, &mut spans)? {
                return Ok(body);
            }
        }
        // The steps can't be counted any more.
        Err(HttpError::Memory(AllocError))
    }

    /// Reads the response to the request that the connection has sent.
    ///
    /// # Errors
    ///
    /// Those of [`Source::read_head`] and [`Source::read_body`].
    pub(crate) fn read_response(
        &mut self,
        connection: &mut Client,
    ) -> Result<Response<Vec<u8>>, HttpError>
        requires head { reading connection.old ≡ Reading.Head }
        requires asked { awaits_head (writing connection.old) ≡ false }
        ensures answer { IfOk result (λ answer. Reads R.remaining self.old self.new
            (λ given left. Replies connection.old given connection.new answer left)) }
        ensures failed { IfErr result (IsReadError R.may_read self.old.unread.items) }
        ensures malformed { IfErr result (Breaks R.remaining self.old self.new
            (LacksAnswer R.may_read connection.old)) }
    {
        self.start()?;
        let parts = self.read_head(connection)?;
        let body = self.read_body(connection)?;
        Ok(Response::from_parts(parts, body))
    }
}
