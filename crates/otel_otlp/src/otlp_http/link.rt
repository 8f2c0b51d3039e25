//! A client, with the head of its requests.
ghost use Rattle.std.specs.Prelude.{◌≡◌};
ghost use Rattle.otel_otlp.specs.HttpExporter.{IsPosted};

use crate::otlp_http::client::{HttpClient, HttpError};
use http::request::Parts;
use http::{Request, Response};
use std::alloc::Global;
use std::mem;

/// A client, with the head of its requests.
#[derive(Drop)]
pub struct Link<C> {
    /// The client.
    pub client: C,
    /// The head.
    pub head: Parts,
}

impl<C: HttpClient> Link<C> {
    /// Sends a copy of the body.
    ///
    /// # Errors
    ///
    /// The client's. `Memory` also if there is no memory for the copy: nothing was sent.
    pub(crate) fn post(
        &mut self,
        alloc: Global,
        body: &[u8],
    ) -> Result<Response<Vec<u8>>, HttpError>
        ensures head { self.new.head ≡ self.old.head }
        ensures posted { IsPosted C.sent C.answers self.old.head body.now
            self.old.client result self.new.client }
    {
        let copy = match Vec::from_slice(alloc, body) {
            Ok(copy) => copy,
            Err(error) => return Err(HttpError::Memory(error)),
        };
        let head = mem::replace(&mut self.head, Parts::new(alloc));
        let request = Request::from_parts(head, copy);
        let answer = self.client.send_bytes(&request);
        let (head, _) = request.into_parts();
        self.head = head;
        answer
    }
}
