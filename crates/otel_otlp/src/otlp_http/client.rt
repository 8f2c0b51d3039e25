//! Clients, which carry requests to a collector.
ghost use Rattle.std.specs.Prelude.{◌≡◌, [], ◌∷◌, ◌++◌};

use http::{Request, Response};
use std::alloc::AllocError;
use std::io;
use thiserror::Error;

/// The reason why no response came.
#[derive(Debug, Drop, Error)]
pub enum HttpError {
    /// No response came, and no error says why. Whether the server got the request isn't known.
    #[error("no response came")]
    Unreachable,
    /// A connection, a read or a write failed. Whether the server got the request isn't known.
    #[error("no response came: {0}")]
    Io(io::Error),
    /// The file of this path, such as a named pipe, couldn't be opened.
    #[error("no response came: {0}: {1}")]
    Unopened(String, io::Error),
    /// The received bytes are no HTTP response.
    #[error("the response isn't HTTP")]
    Malformed,
    /// Out of memory. Not in the Rust crate, which aborts.
    #[error("no memory")]
    Memory(AllocError),
}

/// Carries HTTP requests to a server (the trait `HttpClient` of the Rust crate
/// `opentelemetry-http`, without its timeouts, since nothing waits here).
///
/// Implement it for the transport of a program, such as a socket or a proxy.
///
/// The ghost member `sent` gives the requests that the client was asked to send, in order. Each
/// call adds its request and no other, whether or not a response came. The ghost member `answers`
/// relates the client before a call, the request, the answer and the client afterwards. Code that
/// is generic over a client knows nothing of it: only a call shows an answer.
pub trait HttpClient: Drop {
    ghost use Rattle.std.specs.Prelude.{List};
    ghost use Rattle.otel_otlp.specs.HttpClient.{Sent, Answer};

    ghost sent: { Self → List Sent };

    ghost answers: { Self → Sent → Answer → Self → Type 0 } = { λ _ _ _ _. Unit {0} };

    /// Sends the request, and returns the response, whatever its status.
    ///
    /// # Errors
    ///
    /// - `Io`, `Unopened` or `Unreachable` if no response came, and `Malformed` if the received
    ///   bytes are no response. The server may have got the request.
    /// - `Memory` if out of memory. The server may have got the request.
    fn send_bytes(&mut self, request: &Request<Vec<u8>>) -> Result<Response<Vec<u8>>, HttpError>
        ensures sends { sent self.new ≡ sent self.old ++ request.now ∷ [] }
        ensures answered { answers self.old request.now result self.new };
}
