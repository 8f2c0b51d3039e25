//! An exporter that draws each batch of spans for a terminal, and a page of HTML that shows traces.
//! Every trace is a tree of names, with durations and bars beside it. Not in the Rust crates.
#![tactic(auto)]

mod bar;
mod columns;
mod drawn;
mod duration;
mod exporter;
mod line;
mod name;
mod page;
mod pictures;
mod prefix;
mod rows;
mod span;

pub use duration::duration_text;
pub use exporter::WaterfallExporter;
pub use name::{columns_left, fit, shown_name};
pub use page::{PageSpan, PageTrace, html_page};
