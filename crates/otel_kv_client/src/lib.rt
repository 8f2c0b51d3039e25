//! A client of a key-value server, instrumented with the API alone: its spans start only if the
//! application traces, and no crate of an SDK is named here.
#![tactic(auto)]

use opentelemetry::propagation::{PropagationError, TextMapPropagator};
use opentelemetry::trace::{SpanBuilder, SpanKind, Tracing};
use std::alloc::AllocError;
use std::collections::HashMap;
use std::fmt::Display;

/// The headers of a request.
pub type Headers = HashMap<String, String>;

/// A server, however it is reached.
pub trait Server {
    /// Why there is no answer.
    type Error: Display + From<AllocError> + From<PropagationError>;

    /// Returns the value of the key, which is set first if a value is given.
    ///
    /// # Errors
    ///
    /// Why there is no answer.
    fn answer(&mut self, key: &str, value: Option<&str>, sent: &Headers) -> Found<Self>;
}

/// The value of a key, if it has one, or the error of the server.
pub type Found<S> = Result<Option<String>, <S as Server>::Error>;

/// A client.
#[derive(Drop)]
pub struct Client<P, S> {
    /// Sets the headers.
    pub propagator: P,
    /// The server.
    pub server: S,
}

impl<P: TextMapPropagator, S: Server> Client<P, S> {
    /// Returns the value of the key.
    ///
    /// # Errors
    ///
    /// The server's error, or why it wasn't asked.
    pub fn get(&mut self, tracing: &mut impl Tracing, key: &str) -> Found<S> {
        self.call(tracing, key, None)
    }

    /// Sets the value of the key.
    ///
    /// # Errors
    ///
    /// The server's error, or why it wasn't asked.
    pub fn put(&mut self, tracing: &mut impl Tracing, key: &str, value: &str) -> Found<S> {
        self.call(tracing, key, Some(value))
    }

    /// Asks the server in a span, whose context the headers carry.
    fn call(&mut self, tracing: &mut impl Tracing, key: &str, value: Option<&str>) -> Found<S> {
        let alloc = tracing.alloc();
        let operation = if value.is_some() { "PUT" } else { "GET" };
        let span = SpanBuilder::from_name(operation.into())
            .with_kind(SpanKind::Client)
            .with_attribute(alloc, "db.operation.name", operation)?
            .with_attribute(alloc, "db.query.text", String::from_str(alloc, key)?)?;
        let Ok(entered) = tracing.enter_with(span) else {
            tracing.count_unrecorded();
            return self.ask(tracing, key, value);
        };
        let found = self.ask(tracing, key, value);
        tracing.exit_with(entered, &found);
        found
    }

    /// Asks the server under the current context, which the headers carry.
    fn ask(&mut self, tracing: &mut impl Tracing, key: &str, value: Option<&str>) -> Found<S> {
        let mut headers = HashMap::new(tracing.alloc());
        tracing.send(&self.propagator, &mut headers)?;
        let found = self.server.answer(key, value, &headers)?;
        tracing.set("db.response.returned_rows", i64::from(found.is_some()))?;
        Ok(found)
    }
}
