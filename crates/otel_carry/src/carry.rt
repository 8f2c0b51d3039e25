//! A whole run: from the bytes of the input to the lines of the output.
ghost use Rattle.std.specs.Prelude.{◌≡◌, ◌≢◌, ◌≤◌, IsOk, IfOk, IfErr, IfSome, OnOk};
ghost use Rattle.std.specs.Io.KnownBytes.{Appends};
ghost use Rattle.otel_carry.specs.Failures.{status_of};
ghost use Rattle.otel_carry.specs.Outcome.{IsFailureOf, IsGood, IsGoodInput};
ghost use Rattle.otel_carry.specs.Report.{failure_line};
ghost use Rattle.otel_carry.specs.Run.{EndsBy, ExtractsFromMap, FailsIfCutOff, IsRunReport};
ghost use Rattle.otel_carry.specs.Run.{WritesRun};

use crate::events::events_of;
use crate::extraction::Extracted;
use crate::failure::Failure;
use crate::input::read_whole;
use crate::report::{write_current, write_outcomes, write_texts};
use opentelemetry::Context;
use opentelemetry::carry::{RunReport, StackEvent, run};
use opentelemetry::propagation::{PropagationError, TextMapCompositePropagator};
use std::alloc::Global;
use std::collections::HashMap;
use std::io::{self, Read, Write};

/// Reads the whole input, runs its attaches and detaches, writes the report of the run or the line
/// of a failure, and flushes the output. Returns the exit status of the program.
///
/// The status is 0 if the whole report was written, and 2 if the input isn't UTF-8 or has a faulty
/// line and the line that says so was written. Otherwise it is 1: the input couldn't be read, the
/// injection or the extraction failed, a write or the flush failed, or the program was out of
/// memory. Nothing is written after a failed write.
///
/// Public in a program, since a crate is a library or a program.
pub fn carry<R: Read + Drop, W: Write>(
    alloc: Global,
    input: R,
    output: &mut W,
    composite: &TextMapCompositePropagator,
) -> u8
    ensures status { result ≤ 2 }
    ensures ends { result ≢ 1 → EndsBy composite.now (λ m. pairs m) (λ m. extracted m)
        (R.remaining input) (W.contents output.old) (W.contents output.new) result }
    ensures failed_write { FailsIfCutOff composite.now (λ m. pairs m) (λ m. extracted m)
        (R.remaining input) (W.contents output.old) (W.contents output.new) result }
{
    match write_result(alloc, input, output, composite) {
        Ok(status) if output.flush().is_ok() => status,
        _ => 1,
    }
}

/// Reads the whole input, runs its attaches and detaches, and writes the report of the run or the
/// line of a failure. Returns the exit status of the program.
fn write_result<R: Read + Drop, W: Write>(
    alloc: Global,
    input: R,
    output: &mut W,
    composite: &TextMapCompositePropagator,
) -> io::Result<u8>
    ensures status { IfOk result (λ status. status ≤ 2) }
    ensures ends { IfOk result (EndsBy composite.now (λ m. pairs m) (λ m. extracted m)
        (R.remaining input) (W.contents output.old) (W.contents output.new)) }
{
    let mut carrier = HashMap::new(alloc);
    match run_input(alloc, input, composite, &mut carrier) {
        Ok(report) => write_run(alloc, output, &report, composite, &carrier),
        Err(failure) => write_failure(output, failure),
    }
}

/// Reads the whole input, and runs its attaches and detaches. Returns the report of the run, which
/// fills the carrier.
fn run_input<R: Read + Drop>(
    alloc: Global,
    input: R,
    composite: &TextMapCompositePropagator,
    carrier: &mut HashMap<String, String>,
) -> Result<RunReport, Failure>
    ensures good { IfOk result (λ _. IfSome (R.remaining input) IsGood) }
    ensures run { IfOk result (IsRunReport composite.now (λ m. pairs m)
        (R.remaining input) carrier.old carrier.new) }
    ensures failure { IfErr result (λ failure. IfSome (R.remaining input) (λ bytes.
        IsFailureOf bytes failure)) }
{
    let events = read_events(alloc, input)?;
    Ok(run(alloc, events, composite, carrier)?)
}

/// Reads the whole input. Returns the events that its lines request.
fn read_events<R: Read + Drop>(alloc: Global, input: R) -> Result<Vec<StackEvent>, Failure>
    ensures good { IfOk result (λ events. IfSome (R.remaining input) (λ bytes.
        IsGoodInput bytes events.items)) }
    ensures failure { IfErr result (λ failure. IfSome (R.remaining input) (λ bytes.
        IsFailureOf bytes failure)) }
{
    let bytes = read_whole(alloc, input)?;
    let text = str::from_utf8(&bytes).map_err(|_| Failure::NotUtf8)?;
    events_of(alloc, text)
}

/// Writes the line of the failure. Returns its exit status.
fn write_failure<W: Write>(output: &mut W, failure: Failure) -> io::Result<u8>
    ensures status { IfOk result (λ status. status ≡ status_of failure) }
    ensures line { OnOk result (Appends (W.contents output.old) (W.contents output.new)
        (failure_line failure)) }
{
    writeln!(output, "{failure}")?;
    Ok(failure.status())
}

/// Writes the report and, if the injection succeeded, the context that the composite extracts from
/// the carrier. Returns the status of the run: 1 if either failed.
fn write_run<W: Write>(
    alloc: Global,
    output: &mut W,
    report: &RunReport,
    composite: &TextMapCompositePropagator,
    carrier: &HashMap<String, String>,
) -> io::Result<u8>
    ensures status { IfOk result (λ status. status ≤ 1) }
    ensures injected { IfOk result (λ status. status ≡ 0 → IsOk report.now.injected) }
    ensures written { IfOk result (WritesRun composite.now (λ m. extracted m) report.now
        carrier.now (W.contents output.old) (W.contents output.new)) }
{
    write_outcomes(output, &report.outcomes)?;
    write_current(output, report.stack.current())?;
    if report.injected.is_err() {
        writeln!(output, "inject: refused")?;
        return Ok(1);
    }
    write_texts(alloc, output, carrier)?;
    let extraction = extract(alloc, composite, &Context::new(), carrier);
    let extracted = Extracted::of(&extraction);
    writeln!(output, "extracted: {extracted}")?;
    Ok(extracted.status())
}

/// Returns the context that the composite extracts from the carrier, starting from the given one.
fn extract(
    alloc: Global,
    composite: &TextMapCompositePropagator,
    context: &Context,
    carrier: &HashMap<String, String>,
) -> Result<Context, PropagationError>
    ensures { ExtractsFromMap composite.now (λ m. extracted m) (λ m. may_refuse m)
        context.now carrier.now result }
{
    composite.extract_with_context(alloc, context, carrier)
}
