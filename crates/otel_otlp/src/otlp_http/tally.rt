//! Counts of the items that don't arrive.
ghost use Rattle.std.specs.Prelude.{◌≡◌, option_map, string_bytes};
ghost use Rattle.std.specs.Option.{option_copied};
ghost use Rattle.otel_otlp.specs.HttpTally as spec;

use crate::otlp_http::response::Partial;
use std::marker::Model;

/// The items that the collector rejected or that were given up, the responses that couldn't be
/// read, and the collector's last message.
#[derive(Drop)]
pub struct Tally {
    rejected: u64,
    given_up: u64,
    unread_responses: u64,
    last_message: Option<String>,
}

impl Model for Tally {
    ghost use Rattle.std.specs.Prelude.{option_map, string_bytes};
    ghost use Rattle.otel_otlp.specs.HttpTally.{TallyOf};

    ghost Value = { TallyOf };

    ghost view = { λ t. record {
      rejected = t.rejected;
      given_up = t.given_up;
      unread_responses = t.unread_responses;
      last_message = option_map string_bytes t.last_message;
    } };
}

/// Returns the number of items that the collector rejected, 0 if its response couldn't be read.
pub(crate) fn rejected_in(partial: &Option<Partial>) -> u64
    ensures { result ≡ spec.rejected_in partial.now }
{
    match partial {
        Some(partial) => partial.rejected,
        None => 0,
    }
}

impl Tally {
    /// Returns a tally of nothing.
    pub(crate) fn new() -> Tally
        ensures { result ≡ spec.nothing }
    {
        Tally {
            rejected: 0,
            given_up: 0,
            unread_responses: 0,
            last_message: None,
        }
    }

    /// Returns the number of rejected items.
    pub(crate) fn rejected(&self) -> u64
        ensures { result ≡ self.now.rejected }
    {
        self.rejected
    }

    /// Returns the number of items that were given up.
    pub(crate) fn given_up(&self) -> u64
        ensures { result ≡ self.now.given_up }
    {
        self.given_up
    }

    /// Returns the number of responses that couldn't be read.
    pub(crate) fn unread_responses(&self) -> u64
        ensures { result ≡ self.now.unread_responses }
    {
        self.unread_responses
    }

    /// Returns the last message.
    pub(crate) fn last_message(&self) -> Option<&str>
        ensures { option_copied result ≡ self.now.last_message }
    {
        match &self.last_message {
            Some(message) => Some(message.as_str()),
            None => None,
        }
    }

    // Keeps the message, if there is one.
    fn keep(&mut self, message: Option<String>)
        ensures { self.new ≡ record self.old {
          last_message = spec.latest (option_map string_bytes message) self.old.last_message;
        } }
    {
        if let Some(message) = message {
            self.last_message = Some(message);
        }
    }

    /// Counts what the response to a request with this many items says, which the collector has
    /// taken; `None` if it couldn't be read.
    pub(crate) fn take(&mut self, count: u64, partial: Option<Partial>)
        ensures { self.new ≡ spec.after_taken count partial self.old }
    {
        match partial {
            Some(partial) => {
                let rejected = partial.rejected.min(count);
                self.rejected = self.rejected.saturating_add(rejected);
                self.keep(partial.message);
            }
            None => self.unread_responses = self.unread_responses.saturating_add(1),
        }
    }

    /// Counts items that were given up, and keeps the collector's message.
    pub(crate) fn give_up(&mut self, count: u64, message: Option<String>)
        ensures { self.new
            ≡ spec.after_given_up count (option_map string_bytes message) self.old }
    {
        self.given_up = self.given_up.saturating_add(count);
        self.keep(message);
    }
}
