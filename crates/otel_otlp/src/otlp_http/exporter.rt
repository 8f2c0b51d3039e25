//! An exporter that sends batches of spans or of log records to a collector.
ghost use Rattle.std.specs.Prelude.{◌≡◌, ◌++◌, ◌∷◌, [], length, IfOk, IfErr, OnOk, OnErr};
ghost use Rattle.std.specs.Prelude.{List, option_map, string_bytes, IsTrue, alloc_error};
ghost use Rattle.std.specs.Option.{option_copied};
ghost use Rattle.std.specs.Rc.{rc_value};
ghost use Rattle.otel_otlp.specs.HttpExporter.{IsNew, IsAccounted, Accepts, Refuses, Flushes};
ghost use Rattle.otel_otlp.specs.HttpExporter.{Leaves, Stays, Delivers, Tries, ShutsDown};
ghost use Rattle.otel_otlp.specs.HttpExporter.{taken, given_up, at, HandsIn, Asks, Ends, IsKept};
ghost use Rattle.otel_otlp.specs.HttpConfig.{NamesEndpoint, IfEndpoint, HasNoTarget, added};
ghost use Rattle.otel_otlp.specs.HttpPart.{PartOf};
ghost use Rattle.otel_sdk_base.specs.Resource as resources;

use crate::otlp_http::client::HttpClient;
use crate::otlp_http::clock_calls::ClockCalls;
use crate::otlp_http::config::{ConfigError, OtlpHttpConfig};
use crate::otlp_http::fate::{Fate, fate_of};
use crate::otlp_http::link::Link;
use crate::otlp_http::outbox::{End, Outbox};
use crate::otlp_http::part::parts_of;
use crate::otlp_http::pause::Pause;
use crate::otlp_http::response::Partial;
use crate::otlp_http::signal::Signal;
use crate::otlp_http::tally::{Tally, rejected_in};
use otel_sdk_base::error::{OTelSdkError, OTelSdkResult};
use otel_sdk_base::resource::Resource;
use otel_sdk_base::{Accepted, Exporter, Losses};
use otel_sdk_logs::LogData;
use otel_sdk_span::SpanData;
use std::alloc::{AllocError, Global};
use std::marker::Model;
use std::random::RandomSource;
use std::rc::Rc;

/// Sends each batch to a collector as a request of OTLP over HTTP, in JSON. The client `C` carries
/// the requests. Nothing waits here: a part that the collector refuses for now stays, and is sent
/// again at a later call, from the moment on that `S` and the clock `K` give ([`crate::Backoff`]).
///
/// ```
/// let config = OtlpHttpConfig::new(alloc)?;
/// let mut exporter = OtlpHttpSpanExporter::new(alloc, client, config, rt, SystemClock::new(rt))?;
/// exporter.export(batch)?;
/// ```
///
/// A batch is accepted whole: its parts wait here until each was taken by the collector or given
/// up, and are sent in order. Until they have left, the next batch is refused, so that a
/// processor's queue keeps it. A part is sent again only if the status was 429, 502, 503 or 504,
/// or if no response came, when the collector may have it already. It is given up and counted
/// after any other status, or if it is one item that is longer than the greatest body. The records
/// that the collector rejects of a part that it takes are counted, and never sent again.
///
/// Contracts see the accepted batches, the parts that have left and that wait, the counts, the
/// client, the head of its requests, the wait and the moments that the clock showed, the resource
/// of later items, and whether it was shut down.
pub struct OtlpHttpExporter<C, R, S, K> {
    alloc: Global,
    link: Link<C>,
    outbox: Outbox<R>,
    tally: Tally,
    pause: Pause<S, K>,
    resource: Rc<Resource>,
    max_body: usize,
    is_shut_down: bool,
    accepted: Accepted<R>,
}

// Written out, so that a caller's proof has one call here, and not the drops of all parts.
impl<C: Drop, R, S: Drop, K: Drop> Drop for OtlpHttpExporter<C, R, S, K> {
    fn drop(self) {
        let OtlpHttpExporter {
            alloc: _,
            link: _,
            outbox: _,
            tally: _,
            pause: _,
            resource: _,
            max_body: _,
            is_shut_down: _,
            accepted: _,
        } = self;
    }
}

/// Sends each batch of spans.
pub type OtlpHttpSpanExporter<C, S, K> = OtlpHttpExporter<C, SpanData, S, K>;

/// Sends each batch of log records. Their lists and maps are cut as in
/// [`crate::OtlpJsonLogExporter`].
pub type OtlpHttpLogExporter<C, S, K> = OtlpHttpExporter<C, LogData, S, K>;

impl<C, R, S, K> Model for OtlpHttpExporter<C, R, S, K> {
    ghost use Rattle.std.specs.Rc.{rc_value};
    ghost use Rattle.otel_otlp.specs.HttpExporter.{Sending};

    ghost Value = { Sending C R };

    ghost view = { λ e. record {
      accepted = e.accepted.batches;
      outbox = e.outbox;
      tally = e.tally;
      client = e.link.client;
      head = e.link.head;
      max_body = e.max_body;
      pause = e.pause;
      resource = rc_value e.resource;
      is_shut_down = e.is_shut_down;
    } };
}

// Returns the resource of items without one.
fn no_resource(alloc: Global) -> Result<Rc<Resource>, AllocError>
    ensures { IfOk result (λ resource. rc_value resource ≡ resources.empty) }
{
    Ok(Rc::new(alloc, Resource::builder_empty(alloc).build())?)
}

impl<C: HttpClient, R: Signal, S: RandomSource + Drop, K: ClockCalls> OtlpHttpExporter<C, R, S, K> {
    /// Creates an exporter. Items have no resource until one is set.
    ///
    /// # Errors
    ///
    /// The client is dropped.
    ///
    /// - `Endpoint`, with the endpoint, if it isn't a URI with a scheme and a host, or if the
    ///   signal's path is to be added after a query or a fragment.
    /// - `Memory` if out of memory.
    pub fn new(
        alloc: Global,
        client: C,
        config: OtlpHttpConfig,
        source: S,
        clock: K,
    ) -> Result<OtlpHttpExporter<C, R, S, K>, ConfigError>
        ensures new { IfOk result (IsNew client config R.target_path) }
        ensures accounted { IfOk result IsAccounted }
        ensures err { IfErr result (NamesEndpoint config.endpoint) }
        ensures refused { IfErr result
            (IfEndpoint (HasNoTarget config.endpoint (added config R.target_path))) }
    {
        let max_body = config.max_body();
        let head = config.into_head(alloc, R::path())?;
        Ok(OtlpHttpExporter {
            alloc,
            link: Link { client, head },
            outbox: Outbox::new(alloc),
            tally: Tally::new(),
            pause: Pause::new(source, clock),
            resource: no_resource(alloc)?,
            max_body,
            is_shut_down: false,
            accepted: Accepted::new(),
        })
    }

    /// Returns the client.
    pub fn client(&self) -> &C
        ensures { result.now ≡ self.now.client }
    {
        &self.link.client
    }

    /// Returns the client, and drops the parts that wait. They aren't counted as given up:
    /// [`Exporter::losses`] tells before how many records they have.
    pub fn into_client(self) -> C
        ensures { result ≡ self.client }
    {
        let OtlpHttpExporter {
            alloc: _,
            link,
            outbox: _,
            tally: _,
            pause: _,
            resource: _,
            max_body: _,
            is_shut_down: _,
            accepted: _,
        } = self;
        let Link { client, head: _ } = link;
        client
    }

    /// Returns the number of parts of the last batch that wait.
    pub fn waiting(&self) -> usize
        ensures { result ≡ length self.now.outbox.waiting }
    {
        self.outbox.len()
    }

    /// Returns the moment before which nothing is sent, in nanoseconds since 1970; 0 unless the
    /// last part that was sent waits.
    pub fn not_before(&self) -> u64
        ensures { result ≡ self.now.pause.not_before }
    {
        self.pause.not_before()
    }

    /// Returns the number of records that the collector rejected, saturating at `u64::MAX`: at most
    /// all of a part, whatever it says.
    pub fn rejected(&self) -> u64
        ensures { result ≡ self.now.tally.rejected }
    {
        self.tally.rejected()
    }

    /// Returns the number of records that were given up, saturating at `u64::MAX`.
    pub fn given_up(&self) -> u64
        ensures { result ≡ self.now.tally.given_up }
    {
        self.tally.given_up()
    }

    /// Returns the number of responses that couldn't be read, of requests that the collector has
    /// taken, saturating at `u64::MAX`.
    pub fn unread_responses(&self) -> u64
        ensures { result ≡ self.now.tally.unread_responses }
    {
        self.tally.unread_responses()
    }

    /// Returns the collector's last message.
    pub fn last_message(&self) -> Option<&str>
        ensures { option_copied result ≡ self.now.tally.last_message }
    {
        self.tally.last_message()
    }

    // Removes the part that waits first, which the collector has taken.
    fn take(&mut self, partial: Option<Partial>)
        requires { ¬ (self.old.outbox.waiting ≡ []) }
        ensures { (part : PartOf R)
            × (self.old.outbox.waiting ≡ part ∷ self.new.outbox.waiting)
            × (self.new ≡ taken part partial self.old) }
    {
        let count = self.outbox.leave(End::Taken(rejected_in(&partial)));
        self.tally.take(count, partial);
        self.pause.restart();
    }

    // Removes the part that waits first, and counts its items as given up.
    fn give_up(&mut self, message: Option<String>)
        requires { ¬ (self.old.outbox.waiting ≡ []) }
        ensures { (part : PartOf R)
            × (self.old.outbox.waiting ≡ part ∷ self.new.outbox.waiting)
            × (self.new ≡ given_up part (option_map string_bytes message) self.old) }
    {
        let count = self.outbox.leave(End::GivenUp);
        self.tally.give_up(count, message);
    }

    // Sends the part that waits first. Returns the moment of the answer, and its meaning.
    fn ask(&mut self) -> (u64, Fate)
        requires { ¬ (self.old.outbox.waiting ≡ []) }
        ensures sent { Asks C.sent C.answers K.shows R.rejected_member
            self.old result.0 result.1 self.new.client }
        ensures rest { self.new ≡ at result.0 (record self.old { client = self.new.client }) }
    {
        let answer = self.link.post(self.alloc, self.outbox.first().body());
        let now = self.pause.now_after(&answer);
        let fate = fate_of(self.alloc, answer, R::rejected_name(), now / 1_000_000_000);
        (now, fate)
    }

    // Removes the part that waits first or keeps it, by the meaning of its answer at this moment.
    fn settle(&mut self, now: u64, fate: Fate) -> OTelSdkResult
        requires { ¬ (self.old.outbox.waiting ≡ []) }
        ensures ok { OnOk result ((part : PartOf R)
            × (self.old.outbox.waiting ≡ part ∷ self.new.outbox.waiting)
            × Ends part fate self.old self.new) }
        ensures err { IfErr result (λ error. IsKept now fate self.old error self.new) }
    {
        match fate {
            Fate::Taken(partial) => {
                self.take(partial.unwrap_or(None));
                Ok(())
            }
            Fate::GivenUp(message) => {
                self.pause.restart();
                self.give_up(message.unwrap_or(None));
                Ok(())
            }
            Fate::Stays(refusal) => {
                self.pause.refuse(now, refusal);
                Err(self.pause.error(self.alloc, now))
            }
        }
    }

    // Sends the part that waits first, unless it is too long. It leaves, or stays with an error.
    fn deliver_first(&mut self) -> OTelSdkResult
        requires { ¬ (self.old.outbox.waiting ≡ []) }
        ensures ok { OnOk result
            (Leaves C.sent C.answers K.shows R.rejected_member self.old self.new) }
        ensures err { IfErr result (λ error.
            Stays C.sent C.answers K.shows R.rejected_member self.old error self.new) }
    {
        if self.outbox.first().body().len() > self.max_body {
            self.give_up(None);
            return Ok(());
        }
        let (now, fate) = self.ask();
        self.settle(now, fate)
    }

    // Sends the parts in order, until one stays.
    fn deliver(&mut self) -> OTelSdkResult
        ensures { Delivers C.sent C.answers K.shows R.rejected_member self.old result self.new }
    {
        while self.outbox.len() > 0 {
            self.deliver_first()?;
        }
        Ok(())
    }

    // Sends the parts, unless it is too early.
    fn try_waiting(&mut self) -> OTelSdkResult
        ensures { Tries C.sent C.answers K.shows R.rejected_member self.old result self.new }
    {
        if self.outbox.len() == 0 {
            return Ok(());
        }
        let now = self.pause.now();
        if !self.pause.is_due(now) {
            return Err(self.pause.error(self.alloc, now));
        }
        self.deliver()
    }

    // Accepts the batch, whose parts now wait.
    fn accept(&mut self, batch: &[R]) -> OTelSdkResult
        ensures ok { OnOk result (HandsIn R.form batch.now self.old self.new) }
        ensures err { IfErr result (λ error.
            (error ≡ OTelSdkError.Memory alloc_error) × (self.new ≡ self.old)) }
    {
        let parts = parts_of(self.alloc, &self.resource, batch, self.max_body)?;
        self.outbox.fill(parts);
        self.accepted = self.accepted.and(batch);
        Ok(())
    }
}

impl<C: HttpClient, R: Signal, S: RandomSource + Drop, K: ClockCalls> Exporter<R>
    for OtlpHttpExporter<C, R, S, K> {
    ghost use Rattle.otel_otlp.specs.HttpExporter.{exporter_calls};

    ghost accepted = { λ e. e.accepted };

    ghost calls = { exporter_calls C.sent C.answers K.shows R.rejected_member };

    /// Sends the parts that wait, and then accepts the batch and sends its parts. A part that the
    /// collector refuses for now is no error here: it waits.
    ///
    /// # Errors
    ///
    /// Nothing of the batch is sent.
    ///
    /// - `AlreadyShutdown` after [`Exporter::shutdown`].
    /// - `InternalFailure` if an earlier part still waits. The text names the status, or why no
    ///   response came, and the wait in seconds; it is empty if out of memory.
    /// - `Memory` if out of memory.
    fn export(&mut self, batch: &[R]) -> OTelSdkResult
        ensures ok { OnOk result (self.new.accepted ≡ self.old.accepted ++ batch.now ∷ []) }
        ensures err { OnErr result (self.new.accepted ≡ self.old.accepted) }
        ensures accepts { OnOk result
            (Accepts C.sent C.answers K.shows R.rejected_member R.form batch.now
            self.old self.new) }
        ensures refused { IfErr result (λ error.
            Refuses C.sent C.answers K.shows R.rejected_member self.old error self.new) }
        ensures accounted { IsAccounted self.old → IsAccounted self.new }
    {
        if self.is_shut_down {
            return Err(OTelSdkError::AlreadyShutdown);
        }
        self.try_waiting()?;
        self.accept(batch)?;
        let _ = self.try_waiting();
        Ok(())
    }

    /// Sends the parts that wait.
    ///
    /// # Errors
    ///
    /// - `AlreadyShutdown` after [`Exporter::shutdown`].
    /// - `InternalFailure` if a part still waits. The text names the status, or why no response
    ///   came, and the wait in seconds; it is empty if out of memory. Before the moment of the next
    ///   try nothing is sent.
    fn force_flush(&mut self) -> OTelSdkResult
        ensures same { self.new.accepted ≡ self.old.accepted }
        ensures flushes { Flushes C.sent C.answers K.shows R.rejected_member
            self.old result self.new }
        ensures accounted { IsAccounted self.old → IsAccounted self.new }
    {
        if self.is_shut_down {
            return Err(OTelSdkError::AlreadyShutdown);
        }
        self.try_waiting()
    }

    /// Sends the parts that wait, and refuses every later call. Parts that still wait aren't sent
    /// any more.
    ///
    /// # Errors
    ///
    /// - `AlreadyShutdown` on a second call.
    /// - `InternalFailure` if a part still waits, as for [`Exporter::force_flush`].
    fn shutdown(&mut self) -> OTelSdkResult
        ensures down { IsTrue self.new.is_shut_down }
        ensures flushes { ShutsDown C.sent C.answers K.shows R.rejected_member
            self.old result self.new }
        ensures accounted { IsAccounted self.old → IsAccounted self.new }
    {
        if self.is_shut_down {
            return Err(OTelSdkError::AlreadyShutdown);
        }
        self.is_shut_down = true;
        self.try_waiting()
    }

    /// Sets the resource that is sent with later batches.
    fn set_resource(&mut self, resource: Rc<Resource>)
        ensures { self.new ≡ record self.old { resource = rc_value resource } }
    {
        self.resource = resource;
    }

    /// Returns how many records the collector rejected, how many were given up, and how many wait.
    fn losses(&self) -> Losses {
        Losses {
            rejected: self.tally.rejected(),
            given_up: self.tally.given_up(),
            dropped: 0,
            held: self.outbox.count(),
        }
    }

    /// Returns the collector's last message.
    fn last_message(&self) -> Option<&str> {
        self.tally.last_message()
    }
}
