//! The two views of a file: its traces, and one of them.

use crate::args::Options;
use crate::chosen::Chosen;
use crate::clock::Clock;
use crate::color::Colors;
use crate::details::Details;
use crate::input::{Lines, Skipped};
use crate::list::{Columns, heading, line};
use crate::logs::{Logs, add_all_events};
use crate::page::{choose, page_trace, write_page};
use crate::picture::write_picture;
use crate::summary::{Counting, Filter, Summary, Traces};
use crate::trace::Found;
use anyhow::{Result, bail};
use opentelemetry::trace::TraceId;
use std::alloc::Global;
use std::fs::File;
use std::io::{BufWriter, Read, Write};

/// Returns the width of the terminal, as the variable `COLUMNS` says it, or 80.
fn width(rt: HostRuntime) -> u16 {
    match std::env::var(&rt, "COLUMNS") {
        Ok(text) => text.as_str().parse::<u16>().unwrap_or(80),
        Err(_) => 80,
    }
}

/// Writes the lines of the records below the heading.
fn write_lines<W: Write>(
    alloc: Global,
    output: &mut W,
    clock: &Clock,
    colors: Colors,
    columns: Columns,
    records: &[Summary],
) -> Result<()> {
    output.write_all(heading(alloc, clock, colors, columns)?.as_bytes())?;
    for record in records {
        output.write_all(line(alloc, clock, colors, columns, record)?.as_bytes())?;
    }
    Ok(output.flush()?)
}

/// Writes the list of the records.
fn write_list(rt: HostRuntime, records: &[Summary]) -> Result<()> {
    let clock = Clock::new(rt);
    let colors = Colors::of_output(rt);
    let columns = Columns::new(width(rt));
    let mut output = BufWriter::new(rt.alloc(), rt.stdout())?;
    write_lines(rt.alloc(), &mut output, &clock, colors, columns, records)
}

/// Tells of the lines that weren't read, since they have none of the things.
fn tell(rt: HostRuntime, skipped: &Skipped, things: &str) -> Result<()> {
    let text = skipped.text(rt.alloc(), things)?;
    Ok(rt.stderr().write_all(text.as_bytes())?)
}

/// Reads the lines. Returns the records of the newest traces that pass the filter.
fn newest<R: Read + Drop>(
    alloc: Global,
    options: &Options<'_>,
    lines: &mut Lines<R>,
) -> Result<Vec<Summary>> {
    let mut counting = Counting {
        service: options.service,
        traces: Traces::new(alloc),
    };
    lines.pass_all(&mut counting)?;
    let filter = Filter {
        errors: options.errors,
        slower: options.slower,
    };
    let Counting { traces, .. } = counting;
    Ok(traces.into_newest(alloc, filter, options.limit)?)
}

/// Lists the newest traces that pass the filter.
fn list<R: Read + Drop>(rt: HostRuntime, options: &Options<'_>, reader: R) -> Result<()> {
    let mut lines = Lines::new(rt, reader)?;
    let records = newest(rt.alloc(), options, &mut lines)?;
    write_list(rt, records.as_slice())?;
    tell(rt, lines.skipped(), "spans")
}

/// Reads the spans of the chosen traces from the file.
fn read_chosen(rt: HostRuntime, file: &str, chosen: &mut Chosen) -> Result<()> {
    let file = File::open(&rt, file)?;
    Lines::new(rt, file)?.pass_all(chosen)
}

/// Reads the file a second time, and writes the page of the chosen traces.
fn write_chosen(rt: HostRuntime, file: &str, path: &str, chosen: Chosen) -> Result<()> {
    let mut chosen = chosen;
    read_chosen(rt, file, &mut chosen)?;
    let traces = chosen.into_traces(rt.alloc())?;
    write_page(rt, path, traces.as_slice())
}

/// Chooses the newest traces that pass the filter.
fn choose_newest<R: Read + Drop>(
    rt: HostRuntime,
    options: &Options<'_>,
    reader: R,
) -> Result<Chosen> {
    let mut lines = Lines::new(rt, reader)?;
    let records = newest(rt.alloc(), options, &mut lines)?;
    tell(rt, lines.skipped(), "spans")?;
    choose(rt, records.as_slice())
}

/// Writes the page of the newest traces that pass the filter.
fn list_page<R: Read + Drop>(
    rt: HostRuntime,
    options: &Options<'_>,
    path: &str,
    reader: R,
) -> Result<()> {
    if options.file == "-" {
        bail!("standard input isn't read twice: --html wants a file or the id of a trace");
    }
    let chosen = choose_newest(rt, options, reader)?;
    write_chosen(rt, options.file, path, chosen)
}

/// Returns the details of the span at this place, or an empty text if there is none.
fn details(
    alloc: Global,
    shown: &Details,
    found: &Found,
    logs: &Logs,
    place: usize,
) -> Result<String> {
    match (found.spans.get(place), found.services.get(place)) {
        (Some(span), Some(service)) => {
            let lines = logs.of(span.span_context.span_id());
            shown.text(alloc, service.as_str(), span, lines)
        }
        _ => Ok(String::new(alloc)),
    }
}

/// Returns how the spans at these places, ordered by start, are shown.
fn shown(rt: HostRuntime, places: &[(u64, usize)]) -> Details {
    Details {
        clock: Clock::new(rt),
        colors: Colors::of_output(rt),
        start: places.first().map_or(0, |first| first.0),
    }
}

/// Writes the details of the spans at these places, with their log records.
fn write_places<W: Write>(
    alloc: Global,
    output: &mut W,
    shown: &Details,
    found: &Found,
    logs: &Logs,
    places: &[(u64, usize)],
) -> Result<()> {
    for (_, place) in places {
        output.write_all(details(alloc, shown, found, logs, *place)?.as_bytes())?;
    }
    Ok(output.flush()?)
}

/// Writes the details of the spans with their log records, ordered by start.
fn write_details(rt: HostRuntime, found: &Found, logs: &Logs) -> Result<()> {
    let places = found.places(rt.alloc())?;
    let shown = shown(rt, places.as_slice());
    let mut output = BufWriter::new(rt.alloc(), rt.stdout())?;
    write_places(
        rt.alloc(),
        &mut output,
        &shown,
        found,
        logs,
        places.as_slice(),
    )
}

/// Checks that exactly one id begins with the digits.
fn check_ids(digits: &str, ids: &[TraceId]) -> Result<()> {
    match ids {
        [] => bail!("no trace's id begins with {digits}"),
        [_] => Ok(()),
        ids => bail!("the ids of several traces begin with {digits}, such as {ids:?}"),
    }
}

/// Tells of the log records that belong to no span of the trace.
fn tell_others(rt: HostRuntime, logs: &Logs) -> Result<()> {
    let text = logs.text(rt.alloc())?;
    Ok(rt.stderr().write_all(text.as_bytes())?)
}

/// Reads the log records of the trace from the file of this path.
fn read_logs(rt: HostRuntime, path: &str, logs: &mut Logs) -> Result<()> {
    let file = File::open(&rt, path)?;
    let mut lines = Lines::new(rt, file)?;
    lines.pass_all_records(logs)?;
    tell(rt, lines.skipped(), "log records")?;
    tell_others(rt, logs)
}

/// Returns the log records of the trace, none if no file was given.
fn logs_of(rt: HostRuntime, path: Option<&str>, found: &Found) -> Result<Logs> {
    let trace = found.ids.first().copied().unwrap_or(TraceId::INVALID);
    let mut logs = Logs::new(rt.alloc(), trace, found.spans.as_slice())?;
    if let Some(path) = path {
        read_logs(rt, path, &mut logs)?;
    }
    Ok(logs)
}

/// Writes the page of the trace, with the log records among the events of their spans.
fn write_found_page(rt: HostRuntime, path: &str, found: Found, logs: &Logs) -> Result<()> {
    let mut found = found;
    add_all_events(rt.alloc(), &mut found.spans, logs)?;
    let trace = page_trace(rt, found)?;
    write_page(rt, path, &[trace])
}

/// Writes the picture of the trace and the details of its spans or, if `html` is a path, its page.
fn write_found(rt: HostRuntime, html: Option<&str>, found: Found, logs: &Logs) -> Result<()> {
    if let Some(path) = html {
        return write_found_page(rt, path, found, logs);
    }
    write_picture(rt, width(rt), found.spans.as_slice())?;
    write_details(rt, &found, logs)
}

/// Reads the spans of the trace whose id begins with the digits.
fn find<R: Read + Drop>(rt: HostRuntime, digits: &str, reader: R) -> Result<Found> {
    let mut lines = Lines::new(rt, reader)?;
    let mut found = Found::new(rt.alloc(), digits)?;
    lines.pass_all(&mut found)?;
    tell(rt, lines.skipped(), "spans")?;
    Ok(found)
}

/// Draws the trace whose id begins with the digits.
fn draw<R: Read + Drop>(
    rt: HostRuntime,
    options: &Options<'_>,
    digits: &str,
    reader: R,
) -> Result<()> {
    let found = find(rt, digits, reader)?;
    check_ids(digits, found.ids.as_slice())?;
    let logs = logs_of(rt, options.logs, &found)?;
    write_found(rt, options.html, found, &logs)
}

/// Shows the traces that the reader's lines contain: the newest, or the one that was asked for.
///
/// # Errors
///
/// The input isn't read, the output isn't written, no trace or several traces have the id, log
/// records were asked for without an id, or out of memory.
pub fn view<R: Read + Drop>(rt: HostRuntime, options: &Options<'_>, reader: R) -> Result<()> {
    match (options.id, options.logs, options.html) {
        (Some(digits), _, _) => draw(rt, options, digits, reader),
        (None, Some(_), _) => bail!("--logs wants the id of a trace"),
        (None, None, Some(path)) => list_page(rt, options, path, reader),
        (None, None, None) => list(rt, options, reader),
    }
}
