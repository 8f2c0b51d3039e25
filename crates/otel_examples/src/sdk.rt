//! Callers of the SDK, of HTTP headers and of the bridge from the crate `log`.

pub mod emitted;
pub mod log_line;
pub mod request;
pub mod traced;
