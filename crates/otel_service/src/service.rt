//! The service, and its work on a request.

use crate::spans::{client_span, server_span, set_response};
use anyhow::{Error, Result, bail, ensure};
use bytes::{BufMut, Bytes};
use http::{HeaderMap, Method, Request, StatusCode};
use http_server::{Config, Connection, Reason, Response, Service as HttpService, State};
use opentelemetry::logs::Logger;
use opentelemetry::trace::{SpanKind, Status, Tracing};
use opentelemetry::{KeyValue, Value};
use otel_appender_log::OpenTelemetryLogBridge;
use otel_http::{HeaderExtractor, HeaderInjector, add_header_line};
use otel_otlp::OtlpJsonLogExporter;
use otel_sdk::env::{ConfiguredPropagator, EnvConfig};
use otel_sdk::error::OTelSdkResult;
use otel_sdk::logs::{SimpleLogProcessor, SimpleLogger};
use otel_sdk::trace::{ExportSchedule, Exports, SpanProcessor, SystemClock, finish};
use std::alloc::AllocError;
use std::io::{self, Read, Stderr, Write};
use std::process::ExitCode;

/// The name of the service.
pub const NAME: &str = "otel_service";

/// The only path that is served.
const CART: &str = "/cart";

/// The host of the prices.
const PRICES: &str = "prices:8080";

/// A log that writes its records to standard error, as lines of JSON.
pub type Log = OpenTelemetryLogBridge<SimpleLogger<OtlpJsonLogExporter<Stderr>, HostRuntime>>;

/// How the program was called, and what its requests share.
#[derive(Drop)]
pub struct Call<'a, L> {
    /// The runtime.
    pub rt: HostRuntime,
    /// The configuration from the environment.
    pub env: &'a EnvConfig,
    /// Reads and writes the headers.
    pub propagator: &'a ConfiguredPropagator,
    /// Writes the log lines.
    pub log: &'a OpenTelemetryLogBridge<L>,
    /// Whether a request is lines of headers.
    pub is_lines: bool,
    /// Where the spans go: a path, a folder of pipes, or standard error.
    pub to: &'a str,
}

/// Makes the log.
///
/// # Errors
///
/// Out of memory.
pub fn logger(rt: HostRuntime, env: &EnvConfig) -> Result<Log, AllocError> {
    let alloc = rt.alloc();
    let lines = SimpleLogProcessor::new(alloc, OtlpJsonLogExporter::new(alloc, rt.stderr())?)?;
    Ok(OpenTelemetryLogBridge::new(alloc, env.logger(alloc, rt, lines, NAME)?))
}

/// Answers the HTTP requests of the connection, until it ends or a request is refused.
fn answer_peer(rt: HostRuntime, peer: &mut Connection, to: &mut impl HttpService) -> Result<()> {
    http_server::serve(peer, to, &mut rt.stdin(), &mut rt.stdout())?;
    match peer.state() {
        State::Closing(Reason::Refused(refusal)) => bail!("a request is refused: {refusal:?}"),
        _ => Ok(()),
    }
}

/// Answers the HTTP requests of standard input, until it ends or a request is refused.
fn answer_http(rt: HostRuntime, service: &mut impl HttpService) -> Result<()> {
    let keys = std::hash::RandomState::new(&rt)?;
    let mut peer = Connection::new(rt.alloc(), keys, Config::default());
    answer_peer(rt, &mut peer, service)
}

/// Answers the requests of a program with a value that traces them.
// Called by `serve`, which is generic over both types: the borrow checker covers no call of a
// function that names `Call`, and so `'static`, for a value whose type holds other lifetimes too.
pub trait Answers<T> {
    /// Answers the requests of standard input, exports their spans, and logs them. Returns a failure
    /// if spans are lost, which standard error tells.
    ///
    /// # Errors
    ///
    /// The reason why the input isn't read, or an answer isn't written.
    fn answer_all(self, tracing: T) -> Result<ExitCode>;
}

impl<'a, T: Exports + Drop, L: Logger> Answers<T> for &'a Call<'a, L> {
    fn answer_all(self, tracing: T) -> Result<ExitCode> {
        Service::serve(self, tracing)
    }
}

/// Answers the requests, as [`Answers::answer_all`].
///
/// # Errors
///
/// As [`Answers::answer_all`].
pub fn serve<C: Answers<T>, T>(call: C, tracing: T) -> Result<ExitCode> {
    call.answer_all(tracing)
}

/// A service that answers requests.
#[derive(Drop)]
pub struct Service<'a, T, L> {
    /// How it was called.
    pub call: &'a Call<'a, L>,
    /// Starts and exports the spans.
    pub tracing: T,
    /// Says when they are exported.
    pub schedule: ExportSchedule,
    /// Whether a failed export, or a loss, was told.
    pub is_told: bool,
}

impl<'a, T: Exports + Drop, L: Logger> Service<'a, T, L> {
    /// Answers the requests, as [`Answers::answer_all`].
    ///
    /// # Errors
    ///
    /// As [`Answers::answer_all`].
    fn serve(call: &'a Call<'a, L>, tracing: T) -> Result<ExitCode> {
        let clock = SystemClock::new(call.rt);
        let mut service = Service {
            call,
            tracing,
            schedule: ExportSchedule::new(&clock, &call.env.span_batches),
            is_told: false,
        };
        let answered = match call.is_lines {
            true => service.answer_lines(call.rt.stdin(), &mut call.rt.stdout()),
            false => answer_http(call.rt, &mut service),
        };
        if let Err(error) = finish(&mut service.tracing, &clock, &call.env.span_batches) {
            // Not an error of `anyhow`, which is cut off after some 100 characters.
            eprintln!(call.rt; "Error: {}: {error}", call.to)?;
            return answered.map(|_| ExitCode::FAILURE);
        }
        answered.map(|_| ExitCode::SUCCESS)
    }

    /// Answers requests of the path `/cart` whose headers are lines. Empty lines separate them, and
    /// their answers. Empty input is a request without headers. Other lines are ignored.
    ///
    /// # Errors
    ///
    /// The reason why the input isn't read, or an answer isn't written or made.
    pub fn answer_lines(&mut self, input: impl Read + Drop, output: &mut impl Write) -> Result<()> {
        let text = io::read_to_string(self.call.rt.alloc(), input)?;
        let mut headers = HeaderMap::new(self.call.rt.alloc());
        for line in text.trim_ascii().lines() {
            add_header_line(self.call.rt.alloc(), &mut headers, line)?;
            if line.is_empty() && !headers.is_empty() {
                writeln!(output, "{}", self.answer(&Method::GET, CART, &headers)?)?;
                headers.clear();
            }
        }
        Ok(output.write_all(self.answer(&Method::GET, CART, &headers)?.as_bytes())?)
    }

    /// Answers the request under the span that its headers name. Returns the headers that are sent
    /// on, as lines.
    ///
    /// # Errors
    ///
    /// The reason why the request isn't served, which its span shows.
    pub fn answer(&mut self, method: &Method, path: &str, headers: &HeaderMap) -> Result<String> {
        let alloc = self.call.rt.alloc();
        let route = if path == CART { Some(CART) } else { None };
        let builder = server_span(alloc, method, path, route, headers)?;
        let received = HeaderExtractor::new(alloc, headers)?;
        let caller = self.tracing.receive(self.call.propagator, &received)?;
        let span = self.tracing.enter_with(builder);
        let lines = self.work(path);
        drop(self.show(lines.as_ref().err()));
        drop(span.map(|span| self.tracing.exit(span)));
        self.tracing.detach(caller);
        let exported = self.export();
        drop(self.tell(exported));
        lines
    }

    /// Shows in the current span whether the request is served and, also in the log, why it isn't.
    fn show(&mut self, error: Option<&Error>) -> Result<()> {
        let alloc = self.call.rt.alloc();
        let Some(error) = error else {
            let ok = StatusCode::OK;
            return Ok(set_response(&mut self.tracing, alloc, SpanKind::Server, ok)?);
        };
        let text = error.to_string(alloc)?;
        log::error!(self.call.log.sink(self.tracing.context()); target: NAME, "{text}");
        self.tracing.record_error(error)?;
        let status = StatusCode::INTERNAL_SERVER_ERROR;
        set_response(&mut self.tracing, alloc, SpanKind::Server, status)?;
        Ok(self.tracing.set_status(Status::error(text.into()))?)
    }

    /// Exports the spans if a batch is full, or once a delay has passed since the last export.
    fn export(&mut self) -> OTelSdkResult {
        let clock = SystemClock::new(self.call.rt);
        self.schedule.export_if_due(&mut self.tracing, &clock)
    }

    /// Tells on standard error that an export failed, or that spans are lost, and what the receiver
    /// says. Does so once.
    fn tell(&mut self, exported: OTelSdkResult) -> Result<()> {
        let (rt, to) = (self.call.rt, self.call.to);
        let losses = self.tracing.processors().losses();
        let is_well = exported.is_ok() && losses.total() == losses.held;
        if is_well || self.is_told {
            return Ok(());
        }
        self.is_told = true;
        let said = match self.tracing.processors().last_message() {
            Some(message) => format!(in rt.alloc(); "; the receiver says: {message:?}")?,
            None => String::new(rt.alloc()),
        };
        match exported {
            Ok(()) => eprintln!(rt; "{to}: spans are lost{said}; so far {losses}")?,
            Err(error) => eprintln!(rt; "{to}: {error}{said}; so far {losses}")?,
        }
        Ok(())
    }

    /// Does the work of a request in two spans. Returns the headers that are sent on, as lines.
    fn work(&mut self, path: &str) -> Result<String> {
        let load = self.tracing.enter("load cart")?;
        self.load()?;
        self.tracing.exit(load);
        let builder = client_span(self.call.rt.alloc(), PRICES, path)?;
        let ask = self.tracing.enter_with(builder)?;
        let (sent, status) = self.ask(path)?;
        self.tracing.exit(ask);
        ensure!(status.is_success(), "no price for {path}");
        log::info!(self.call.log.sink(self.tracing.context()); target: NAME, "served /cart");
        Ok(sent.to_string(self.call.rt.alloc())?)
    }

    /// Makes the headers of the request for the price, and shows the status of its response. Nothing
    /// is sent: only the cart has a price.
    fn ask(&mut self, path: &str) -> Result<(HeaderInjector, StatusCode)> {
        let alloc = self.call.rt.alloc();
        let mut sent = HeaderInjector::new(HeaderMap::new(alloc));
        self.tracing.send(self.call.propagator, &mut sent)?;
        let status = if path == CART {
            StatusCode::OK
        } else {
            StatusCode::NOT_FOUND
        };
        set_response(&mut self.tracing, alloc, SpanKind::Client, status)?;
        Ok((sent, status))
    }

    /// Loads the cart of the user that the baggage names.
    fn load(&mut self) -> Result<()> {
        let baggage = self.tracing.context().baggage();
        if let Some(user) = baggage.and_then(|baggage| baggage.get("userId")) {
            let user = KeyValue::new("user.id".into(), Value::from(user.clone()?));
            self.tracing.set_attribute(user)?;
        }
        let none = Vec::new(self.call.rt.alloc());
        Ok(self.tracing.add_event("cache miss".into(), none)?)
    }
}

impl<T: Exports + Drop, L: Logger> HttpService for Service<'_, T, L> {
    ghost answers = { λ _ _ _ _. Unit {0} };

    fn call(&mut self, request: &Request<Bytes>, answer: &mut Response) -> Result<(), AllocError> {
        match self.answer(request.method(), request.uri().path(), request.headers()) {
            Ok(lines) => drop(answer.body.put_slice(lines.as_bytes())),
            Err(_) => answer.status = StatusCode::INTERNAL_SERVER_ERROR,
        }
        Ok(())
    }
}
