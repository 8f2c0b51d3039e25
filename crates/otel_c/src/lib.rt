//! The library for C and for languages that call C: headers, contexts and stacks by handles, and
//! trace states as texts in the caller's memory. `include/otel.h` declares the functions and lists
//! the caller's obligations.
#![tactic(auto)]

pub mod baggage;
pub mod child;
pub mod context;
pub mod detached;
pub mod handle;
pub mod headers;
pub mod ids;
pub mod many;
pub mod member;
pub mod object;
pub mod pair;
pub mod room;
pub mod sendable;
pub mod span;
pub mod stack;
pub mod status;
pub mod trace_state;
pub mod traceparent;
pub mod values;
