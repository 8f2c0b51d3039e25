//! The lines of a file.
ghost use Rattle.std.specs.Prelude.{◌≡◌, OnOk, IfOk, IfNone, IfSome};
ghost use Rattle.otel_view.specs.Skipped as spec;

use crate::progress::{Count, Progress};
use anyhow::Result;
use opentelemetry::StringValue;
use otel_otlp::{ReadError, ResourceLogs, ResourceSpans, read_resource_logs, read_resource_spans};
use otel_sdk_base::resource::Resource;
use otel_sdk_logs::SdkLogRecord;
use otel_sdk_span::SpanData;
use std::alloc::{AllocError, Global};
use std::io::{self, BufRead, BufReader, Read};

/// The number of lines whose numbers are kept.
const NUMBERS: usize = 10;

/// The lines that weren't read.
#[derive(Drop)]
pub struct Skipped {
    /// How many they are.
    pub count: u64,
    /// The numbers of the first, counted from 1.
    pub numbers: Vec<u64>,
}

impl Skipped {
    /// Returns no lines.
    fn new(alloc: Global) -> Skipped {
        Skipped {
            count: 0,
            numbers: Vec::new(alloc),
        }
    }

    /// Adds the line with this number.
    fn add(&mut self, number: u64) -> Result<(), AllocError>
        ensures { OnOk result (spec.AddsLine number self.old self.new) }
    {
        if self.numbers.len() < NUMBERS {
            self.numbers.push(number)?;
        }
        self.count = self.count.saturating_add(1);
        Ok(())
    }

    /// Returns the text that tells of the lines, with a newline, or an empty text if there are
    /// none.
    pub fn text(&self, alloc: Global, wanted: &str) -> Result<String, AllocError> {
        let count = self.count;
        let mut text = match count {
            0 => return Ok(String::new(alloc)),
            1 => format!(in alloc; "1 line has no {wanted}:")?,
            _ => format!(in alloc; "{count} lines have no {wanted}:")?,
        };
        for number in &self.numbers {
            text.push_str(format!(in alloc; " {number}")?.as_str())?;
        }
        if count > self.numbers.len() as u64 {
            text.push_str(" ..")?;
        }
        text.push('\n')?;
        Ok(text)
    }
}

/// Returns whether the line has only spaces.
fn is_blank(line: &[u8]) -> bool
    ensures { result ≡ spec.is_blank line.now }
{
    line.iter().all(|byte| byte.is_ascii_whitespace())
}

/// Returns the text of the line.
fn text_of(line: &[u8]) -> Result<&str, ReadError> {
    match str::from_utf8(line) {
        Ok(text) => Ok(text),
        Err(_) => Err(ReadError::Json),
    }
}

/// Returns the groups of the line. A line without groups isn't one of their signal.
fn not_empty<G: Drop>(groups: Vec<G>) -> Result<Vec<G>, ReadError> {
    if groups.is_empty() {
        return Err(ReadError::Json);
    }
    Ok(groups)
}

/// Reads a line of spans.
fn spans_of(alloc: Global, line: &[u8]) -> Result<Vec<ResourceSpans>, ReadError> {
    let text = text_of(line)?;
    not_empty(read_resource_spans(alloc, text)?)
}

/// Reads a line of log records.
fn records_of(alloc: Global, line: &[u8]) -> Result<Vec<ResourceLogs>, ReadError> {
    let text = text_of(line)?;
    not_empty(read_resource_logs(alloc, text)?)
}

/// What takes the spans of lines.
pub trait SpanTaker {
    /// Takes a span that this service recorded.
    ///
    /// # Errors
    ///
    /// `AllocError` if out of memory.
    fn take(&mut self, service: &StringValue, span: SpanData) -> Result<(), AllocError>;
}

/// What takes the log records of lines.
pub trait RecordTaker {
    /// Takes a record.
    ///
    /// # Errors
    ///
    /// `AllocError` if out of memory.
    fn take(&mut self, alloc: Global, record: SdkLogRecord) -> Result<(), AllocError>;
}

/// Passes on the log records of a line, in their order.
fn pass_records<T: RecordTaker>(
    alloc: Global,
    taker: &mut T,
    groups: Vec<ResourceLogs>,
) -> Result<(), AllocError> {
    for group in groups {
        for entry in group.records {
            taker.take(alloc, entry.record)?;
        }
    }
    Ok(())
}

/// Returns the name of the service that the resource describes.
fn service_of(alloc: Global, resource: &Resource) -> Result<StringValue, AllocError> {
    match resource.get("service.name") {
        Some(value) => StringValue::from_value(alloc, value.clone()?),
        None => Ok(StringValue::from("")),
    }
}

/// Passes on the spans of a service, in their order.
fn pass_spans<T: SpanTaker>(
    taker: &mut T,
    service: &StringValue,
    spans: Vec<SpanData>,
) -> Result<(), AllocError> {
    for span in spans {
        taker.take(service, span)?;
    }
    Ok(())
}

/// Passes on the spans of a resource, in their order.
fn pass_group<T: SpanTaker>(
    alloc: Global,
    taker: &mut T,
    group: ResourceSpans,
) -> Result<(), AllocError> {
    let service = service_of(alloc, &group.resource)?;
    pass_spans(taker, &service, group.spans)
}

/// Passes on the spans of a line, in their order.
fn pass_groups<T: SpanTaker>(
    alloc: Global,
    taker: &mut T,
    groups: Vec<ResourceSpans>,
) -> Result<(), AllocError> {
    for group in groups {
        pass_group(alloc, taker, group)?;
    }
    Ok(())
}

/// The lines of a reader, read one by one.
#[derive(Drop)]
pub struct Lines<R> {
    alloc: Global,
    progress: Progress,
    reader: BufReader<R>,
    line: Vec<u8>,
    count: Count,
    skipped: Skipped,
}

impl<R: Read + Drop> Lines<R> {
    /// Returns the lines of the reader.
    pub fn new(rt: HostRuntime, reader: R) -> io::Result<Lines<R>> {
        let alloc = rt.alloc();
        let reader = BufReader::new(alloc, reader)?;
        Ok(Lines {
            alloc,
            progress: Progress::new(rt),
            reader,
            line: Vec::new(alloc),
            count: Count { lines: 0, bytes: 0 },
            skipped: Skipped::new(alloc),
        })
    }

    /// Reads the next line. Returns `false` at the end.
    fn read_line(&mut self) -> io::Result<bool> {
        self.line.clear();
        let bytes = self.reader.read_until(b'\n', &mut self.line)?;
        let before = self.count;
        self.count = before.with_line(bytes);
        if bytes == 0 {
            self.progress.clear(self.count)?;
            return Ok(false);
        }
        self.progress.tell(before, self.count)?;
        Ok(true)
    }

    /// Returns the groups that were read of the line, or `None` if it has none. A line without
    /// groups is counted unless it is blank.
    fn kept<G: Drop>(
        &mut self,
        read: Result<Vec<G>, ReadError>,
    ) -> Result<Option<Vec<G>>, AllocError>
        ensures none { IfOk result (λ groups. IfNone groups (spec.SkipsLine
            self.old.count.lines self.old.line.items self.old.skipped self.new.skipped)) }
        ensures some { IfOk result (λ groups. IfSome groups (λ _.
            self.new.skipped ≡ self.old.skipped)) }
    {
        match read {
            Ok(groups) => Ok(Some(groups)),
            Err(ReadError::Memory(error)) => Err(error),
            Err(_) => {
                self.skip()?;
                Ok(None)
            }
        }
    }

    /// Counts the line that was read, unless it is blank.
    fn skip(&mut self) -> Result<(), AllocError>
        ensures { OnOk result (spec.SkipsLine self.old.count.lines self.old.line.items
            self.old.skipped self.new.skipped) }
    {
        if is_blank(self.line.as_slice()) {
            return Ok(());
        }
        self.skipped.add(self.count.lines)
    }

    /// Reads the next line, and passes its spans on. Returns `false` at the end.
    fn pass_line<T: SpanTaker>(&mut self, taker: &mut T) -> Result<bool> {
        if !self.read_line()? {
            return Ok(false);
        }
        let read = spans_of(self.alloc, self.line.as_slice());
        if let Some(groups) = self.kept(read)? {
            pass_groups(self.alloc, taker, groups)?;
        }
        Ok(true)
    }

    /// Reads the next line, and passes its log records on. Returns `false` at the end.
    fn pass_log_line<T: RecordTaker>(&mut self, taker: &mut T) -> Result<bool> {
        if !self.read_line()? {
            return Ok(false);
        }
        let read = records_of(self.alloc, self.line.as_slice());
        if let Some(groups) = self.kept(read)? {
            pass_records(self.alloc, taker, groups)?;
        }
        Ok(true)
    }

    /// Passes on the spans of all lines, in their order.
    ///
    /// # Errors
    ///
    /// The reader's error, or out of memory.
    pub fn pass_all<T: SpanTaker>(&mut self, taker: &mut T) -> Result<()> {
        for _ in 0..u64::MAX {
            if !self.pass_line(taker)? {
                break;
            }
        }
        Ok(())
    }

    /// Passes on the log records of all lines, in their order.
    ///
    /// # Errors
    ///
    /// The reader's error, or out of memory.
    pub fn pass_all_records<T: RecordTaker>(&mut self, taker: &mut T) -> Result<()> {
        for _ in 0..u64::MAX {
            if !self.pass_log_line(taker)? {
                break;
            }
        }
        Ok(())
    }

    /// Returns the lines that weren't read.
    pub fn skipped(&self) -> &Skipped {
        &self.skipped
    }
}
