//! Values and attributes in the binary form of the OpenTelemetry protocol (OTLP), in Protocol
//! Buffers.
#![tactic(auto)]

mod common;
mod fields;
pub mod laws;
mod output;
mod trees;

pub use common::{key_value_list_bytes, put_attributes};
pub use fields::{
    put_bytes, put_bytes_unless_empty, put_fixed32, put_fixed32_unless_zero,
    put_fixed64_unless_zero, put_head, put_number, put_number_unless_zero, put_text_unless_empty,
};
pub use output::Output;
pub use trees::{MAX_LEVELS, any_value_bytes, put_entry, put_value};
