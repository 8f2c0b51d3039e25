//! The events of a run, and the outcomes of its attaches.
use crate::context::Context;

/// One event of a run.
///
/// See [`run`](crate::carry::run).
#[derive(Drop)]
pub enum StackEvent {
    /// Attaches the context.
    Attach(Context),
    /// Detaches the context attached by attach number N. The attaches of a run are numbered from 0.
    Detach(usize),
}

/// The outcome of an attach.
///
/// See [`run`](crate::carry::run).
#[derive(Clone, Copy, Debug, PartialEq, Eq)]
pub enum AttachOutcome {
    /// The context was attached at this position, from 1 to 65534.
    Attached(u16),
    /// The newest live position was 65534. Nothing changed.
    Full,
    /// Out of memory, which happens only if the newest position is 8 or more. Nothing changed.
    NoMemory,
}
