//! The picture of a trace, in colours.
ghost use Rattle.std.specs.Prelude.{◌≡◌};
ghost use Rattle.otel_view.specs.Color as spec;

use crate::color::{Colors, Paint};
use anyhow::Result;
use otel_sdk_base::Exporter;
use otel_sdk_span::SpanData;
use otel_waterfall::WaterfallExporter;
use std::alloc::{AllocError, Global};
use std::io::Write;

/// Returns how a line of a picture is shown. The line of a span with an error ends with that word,
/// after the bar.
fn paint_of(colors: Colors, line: &str) -> Paint
    ensures { result ≡ spec.error_if colors.are_on (spec.is_error_line line.now) }
{
    colors.error_if(line.as_bytes().ends_with(b" error"))
}

/// Returns the picture in colours.
fn painted(alloc: Global, colors: Colors, picture: &str) -> Result<String, AllocError> {
    let mut text = String::new(alloc);
    for line in picture.lines() {
        paint_of(colors, line).push(&mut text, line)?;
        text.push('\n')?;
    }
    Ok(text)
}

/// Writes the picture of the spans, of this width.
pub fn write_picture(rt: HostRuntime, width: u16, spans: &[SpanData]) -> Result<()> {
    let alloc = rt.alloc();
    let mut exporter = WaterfallExporter::new(alloc, Vec::new(alloc)).with_width(width);
    exporter.export(spans)?;
    let picture = str::from_utf8(exporter.output().as_slice())?;
    let text = painted(alloc, Colors::of_output(rt), picture)?;
    rt.stdout().write_all(text.as_bytes())?;
    Ok(())
}
