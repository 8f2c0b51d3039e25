//! The limits of a queue.
ghost use Rattle.std.specs.Prelude.{◌≡◌};
ghost use Rattle.otel_sdk_base.specs.Queue.{effective, default_limits};

use std::default::Default;
use std::marker::Model;

/// The maximum number of spans or log records that a batch processor queues, and that it exports at
/// once (the Rust crate's `BatchConfig`, without its delays, since there is no clock to wait on).
///
/// See [`BatchConfigBuilder`].
#[derive(Clone, Copy, Debug)]
pub struct BatchConfig {
    pub(crate) max_queue_size: usize,
    pub(crate) max_export_batch_size: usize,
}

impl Model for BatchConfig {
    ghost use Rattle.std.specs.Prelude.{◌≤◌, ◌<◌};
    ghost use Rattle.otel_sdk_base.specs.Queue.{Limits};

    ghost Value = { Limits };

    ghost view = { λ c. record {
      max_queue_size = c.max_queue_size;
      max_export_batch_size = c.max_export_batch_size;
    } };

    ghost inverse = { λ l. record {
      max_queue_size = l.max_queue_size;
      max_export_batch_size = l.max_export_batch_size;
    } };

    ghost invariant = { λ c. (0 < c.max_export_batch_size)
        × (c.max_export_batch_size ≤ c.max_queue_size) };
}

impl Default for BatchConfig {
    ghost is_default = { λ c. c ≡ default_limits };

    /// Returns the default limits: 2,048 items in a queue and 512 in a batch.
    fn default() -> BatchConfig {
        BatchConfigBuilder::default().build()
    }
}

/// Builds a [`BatchConfig`] (the Rust crate's `BatchConfigBuilder`).
///
/// ```
/// let config = BatchConfigBuilder::default().with_max_queue_size(4096).build();
/// ```
#[derive(Debug, Drop)]
pub struct BatchConfigBuilder {
    max_queue_size: usize,
    max_export_batch_size: usize,
}

impl Model for BatchConfigBuilder {
    ghost use Rattle.otel_sdk_base.specs.Queue.{Limits};

    ghost Value = { Limits };

    ghost view = { λ b. record {
      max_queue_size = b.max_queue_size;
      max_export_batch_size = b.max_export_batch_size;
    } };
}

impl Default for BatchConfigBuilder {
    ghost is_default = { λ b. b ≡ default_limits };

    /// Returns the default limits: 2,048 items in a queue and 512 in a batch (OpenTelemetry trace
    /// SDK and logs SDK, "Batching processor").
    fn default() -> BatchConfigBuilder {
        BatchConfigBuilder {
            max_queue_size: 2048,
            max_export_batch_size: 512,
        }
    }
}

impl BatchConfigBuilder {
    /// Sets the maximum queue size. Zero is treated as one.
    pub fn with_max_queue_size(mut self, max_queue_size: usize) -> BatchConfigBuilder
        ensures { result ≡ record self { max_queue_size = max_queue_size } }
    {
        self.max_queue_size = max_queue_size;
        self
    }

    /// Sets the maximum batch size. Zero is treated as one. A size above the queue's limit is
    /// treated as that limit.
    pub fn with_max_export_batch_size(mut self, max_export_batch_size: usize) -> BatchConfigBuilder
        ensures { result ≡ record self { max_export_batch_size = max_export_batch_size } }
    {
        self.max_export_batch_size = max_export_batch_size;
        self
    }

    /// Returns the limits.
    pub fn build(self) -> BatchConfig
        ensures { result ≡ effective self }
    {
        let max_queue_size = self.max_queue_size.max(1);
        BatchConfig {
            max_queue_size,
            max_export_batch_size: self.max_export_batch_size.max(1).min(max_queue_size),
        }
    }
}
