//! A client over two files, which are opened anew for each request.
ghost use Rattle.std.specs.Prelude.{◌≡◌, [], ◌∷◌, ◌++◌, IfOk, IfErr, Ok, codes, string_bytes};
ghost use Rattle.http.specs.Request.{head_of, body_of};
ghost use Rattle.otel_otlp.specs.FileClient.{initial, file_in, IsAnswered, Reads};
ghost use Rattle.otel_otlp.specs.FileClient.{IsUnopened, IsUnanswered};

use crate::otlp_http::client::{HttpClient, HttpError};
use crate::otlp_http::file_calls::FileCalls;
use crate::otlp_http::reader_calls::ReaderCalls;
use crate::otlp_http::stream_client::StreamClient;
use http::{Request, Response};
use otel_sdk_base::{Accepted, WriterCalls};
use std::alloc::{AllocError, Global};
use std::hash::RandomState;
use std::marker::Model;

/// Sends each request over a connection of its own, which another program makes: writes the
/// request to the file `request` of a folder, and reads the response from its file `response`.
/// Not in the Rust crates.
///
/// ```
/// let mut client = FileClient::new(alloc, RandomState::new(&rt)?, rt, folder.as_str())?;
/// ```
///
/// Both files are opened for each request, `request` first, and closed after the response. Let them
/// be named pipes: the crate's script, `pipes FOLDER TCP:localhost:4318`, makes them and joins them
/// to a collector by `socat`.
///
/// A request waits until the pipes are opened, for as long as the script isn't there. Only one
/// client may use a folder at a time.
///
/// Contracts see the requests that it was asked to send, and the folder's path.
pub struct FileClient<R> {
    alloc: Global,
    keys: RandomState,
    files: R,
    folder: String,
    sent: Accepted<Request<Vec<u8>>>,
}

// Written out, so that a caller's proof has one call here, and not the drops of all parts.
impl<R: Drop> Drop for FileClient<R> {
    fn drop(self) {
        let FileClient {
            alloc: _,
            keys: _,
            files: _,
            folder: _,
            sent: _,
        } = self;
    }
}

impl<R> Model for FileClient<R> {
    ghost use Rattle.std.specs.Prelude.{flat_map, string_bytes};
    ghost use Rattle.otel_otlp.specs.FileClient.{Filing};

    ghost Value = { Filing };

    ghost view = { λ c. record {
      sent = flat_map (λ batch. batch) c.sent.batches;
      folder = string_bytes c.folder;
    } };
}

impl<R: FileCalls + Drop> FileClient<R> {
    /// Returns the client of the folder. Opens no file. The keys are for the maps of headers, whose
    /// names the server chooses: `RandomState::new(&rt)`.
    ///
    /// # Errors
    ///
    /// `AllocError` if out of memory.
    pub fn new(
        alloc: Global,
        keys: RandomState,
        files: R,
        folder: &str,
    ) -> Result<FileClient<R>, AllocError>
        ensures { IfOk result (λ client. client ≡ initial folder.now) }
    {
        Ok(FileClient {
            alloc,
            keys,
            files,
            folder: String::from_str(alloc, folder)?,
            sent: Accepted::new(),
        })
    }

    // Returns the path of the folder's file with this name.
    fn path(&self, name: &str) -> Result<String, AllocError>
        ensures { IfOk result (λ path. string_bytes path
            ≡ file_in self.now.folder name.now) }
    {
        let mut path = String::from_str(self.alloc, self.folder.as_str())?;
        path.push('/')?;
        path.push_str(name)?;
        Ok(path)
    }

    // Opens the folder's file `request` to write to it.
    fn open_request(&self) -> Result<R::Stream, HttpError>
        ensures ok { IfOk result (λ file.
            R.outputs (file_in self.now.folder (codes "request")) (Ok file)) }
        ensures err { IfErr result (IsUnopened R.outputs self.now.folder (codes "request")) }
    {
        let path = self.path("request").map_err(HttpError::Memory)?;
        match self.files.open_output(path.as_str()) {
            Ok(file) => Ok(file),
            Err(error) => Err(HttpError::Unopened(path, error)),
        }
    }

    // Opens the folder's file `response` to read it, once `output` is open.
    fn open_response(&self, output: &R::Stream) -> Result<R::Stream, HttpError>
        ensures ok { IfOk result (λ file.
            R.inputs output.now (file_in self.now.folder (codes "response")) (Ok file)) }
        ensures err { IfErr result
            (IsUnopened (R.inputs output.now) self.now.folder (codes "response")) }
    {
        let path = self.path("response").map_err(HttpError::Memory)?;
        match self.files.open_input(path.as_str(), output) {
            Ok(file) => Ok(file),
            Err(error) => Err(HttpError::Unopened(path, error)),
        }
    }
}

impl<S, R> HttpClient for FileClient<R>
where
    S: ReaderCalls + WriterCalls + Drop,
    R: FileCalls<Stream = S> + Drop,
{
    ghost sent = { λ c. c.sent };

    /// Opens the files, sends the request, and reads its response.
    ///
    /// # Errors
    ///
    /// - `Unopened` with the path and the file's own error if a file can't be opened.
    /// - `Io` with the file's own error if it can't be written or read, and `Unreachable` if it
    ///   takes no byte, or if the response is empty.
    /// - `Malformed` if the response isn't HTTP, as for a [`StreamClient`].
    /// - `Memory` if out of memory.
    fn send_bytes(&mut self, request: &Request<Vec<u8>>) -> Result<Response<Vec<u8>>, HttpError>
        ensures sent { self.new.sent ≡ self.old.sent ++ request.now ∷ [] }
        ensures folder { self.new.folder ≡ self.old.folder }
        ensures answer { IfOk result (IsAnswered (head_of request.now)) }
        ensures read { IfOk result (Reads R.outputs R.inputs S.contents S.remaining
            (head_of request.now) (body_of request.now).items self.old.folder) }
        ensures failed { IfErr result (IsUnanswered R.outputs R.inputs S.contents S.remaining
            S.may_write S.flushed S.may_read
            (head_of request.now) (body_of request.now).items self.old.folder) }
    {
        self.sent = self.sent.and_one(request);
        let output = self.open_request()?;
        let input = self.open_response(&output)?;
        StreamClient::new(self.alloc, self.keys, input, output).send_bytes(request)
    }
}
