//! The sampling state of a span in the headers of B3.

/// Whether a trace is recorded.
#[derive(Clone, Copy)]
pub(crate) enum Sampling {
    Denied,
    Accepted,
    /// Left to the receiver.
    Deferred,
    /// Accepted, and each sampler is to accept the trace too.
    Debug,
}
