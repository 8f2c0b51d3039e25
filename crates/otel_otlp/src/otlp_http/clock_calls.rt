//! The readings of a clock, which no contract of a [`Clock`] sees.
ghost use Rattle.otel_sdk_base.specs.Export.{items_of};

use crate::otlp_http::client::HttpError;
use http::Response;
use otel_sdk_base::{Accepted, Clock};

/// The calls of an exporter on its clock. Every [`Clock`] has them.
///
/// The ghost member `shows` relates the moments that the clock showed before, the answer after
/// which it was asked, if there is one, and the moment that it showed then. Code that is generic
/// over this trait knows nothing of it: only a call shows a moment. So a contract that cites it
/// says that the clock was asked, after that answer, and once more than before.
pub trait ClockCalls: Clock {
    ghost use Rattle.std.specs.Prelude.{ℕ, List, Option, Some, None};
    ghost use Rattle.otel_otlp.specs.HttpClient.{Answer};

    ghost shows: { List ℕ → Option Answer → ℕ → Type 0 };

    /// Returns the current time, as [`Clock::now`]. `earlier` has the moments that the clock
    /// showed before.
    fn show(&self, earlier: &Accepted<u64>) -> u64
        ensures { shows (items_of earlier.now.batches) None result };

    /// Returns the current time, as [`Clock::now`], once this answer has come.
    fn show_after(
        &self,
        earlier: &Accepted<u64>,
        answer: &Result<Response<Vec<u8>>, HttpError>,
    ) -> u64
        ensures { shows (items_of earlier.now.batches) (Some answer.now) result };
}

impl<K: Clock> ClockCalls for K {
    ghost shows = { λ _ _ _. Unit {0} };

    fn show(&self, _earlier: &Accepted<u64>) -> u64 {
        self.now()
    }

    fn show_after(
        &self,
        _earlier: &Accepted<u64>,
        _answer: &Result<Response<Vec<u8>>, HttpError>,
    ) -> u64 {
        self.now()
    }
}
