//! A service at work. It answers the HTTP requests of standard input on standard output, each in a
//! span under the span that the request's headers name.

mod service;
mod spans;

use anyhow::Result;
use clap::{ArgGroup, ArgMatches, Command, arg};
use opentelemetry::logs::Logger;
use otel_otlp::{AppendFile, OtlpJsonSpanExporter, pipe_exporter};
use otel_sdk::EnvConfig;
use otel_sdk::trace::{
    BatchConfig, BatchConfigBuilder, Build, SpanExporter, TracingBuilder, WithExporter,
};
use otel_waterfall::WaterfallExporter;
use service::{Call, NAME, logger, serve};
use std::alloc::{AllocError, Global};
use std::process::ExitCode;

/// Returns the sizes of the exporter's queue and batches. Pictures are of all queued spans, so that
/// none has only a part of a trace.
fn batches(env: &EnvConfig, is_picture: bool) -> BatchConfig {
    if !is_picture {
        return env.span_batches.config();
    }
    let size = env.span_batches.max_queue_size as usize;
    let builder = BatchConfigBuilder::default().with_max_queue_size(size);
    builder.with_max_export_batch_size(size).build()
}

/// Answers the requests, and hands their spans to the exporter.
fn run<E: SpanExporter, L: Logger>(
    call: &Call<L>,
    matches: &ArgMatches<'_>,
    to: E,
) -> Result<ExitCode> {
    let spans = TracingBuilder::new(call.rt).with_env(call.rt.alloc(), call.env)?;
    let spans = spans.with_batch_config(batches(call.env, matches.get_flag("waterfall")));
    if matches.get_flag("fixed") {
        // A millisecond from one reading of the clock to the next.
        let spans = spans.counted(1_000_000).with_exporter(to);
        return serve(call, spans.build(call.rt.alloc(), NAME)?);
    }
    let spans = spans.with_exporter(to);
    serve(call, spans.build(call.rt.alloc(), NAME)?)
}

/// Returns the command with its arguments.
fn command<'a>(alloc: Global) -> Result<Command<'a>, AllocError> {
    let one = ArgGroup::new(alloc, "exporter").arg("waterfall")?;
    let one = one.arg("otlp")?.arg("FILE")?;
    Command::new(alloc, NAME)
        .version("0.33.1")
        .about("Answers the HTTP requests of standard input, and traces them")
        .after_help(EnvConfig::HELP)
        .group(one)?
        .arg(arg!(in alloc; --headers "Reads requests as lines of headers"))?
        .arg(arg!(in alloc; --fixed "Counts ids and the clock"))?
        .arg(arg!(in alloc; --waterfall "Draws the traces on stderr"))?
        .arg(arg!(in alloc; --otlp <DIR> "Sends spans by its pipes"))?
        .arg(arg!(in alloc; [FILE] "Appends lines of JSON"))
}

/// Returns where the arguments send the spans.
fn outlet(alloc: Global, matches: &ArgMatches<'_>) -> Result<String, AllocError> {
    if matches.get_flag("waterfall") {
        return String::from_str(alloc, "standard error");
    }
    if let Some(folder) = matches.get_str("otlp") {
        return String::from_str(alloc, folder);
    }
    let path = matches.get_str("FILE").unwrap_or("/dev/null");
    String::from_str(alloc, path)
}

/// Answers the requests with the exporter that the arguments name.
fn export<L: Logger>(call: &Call<L>, matches: &ArgMatches<'_>) -> Result<ExitCode> {
    let alloc = call.rt.alloc();
    if matches.get_flag("waterfall") {
        let exporter = WaterfallExporter::new(alloc, call.rt.stderr());
        return run(call, matches, exporter);
    }
    if let Some(folder) = matches.get_str("otlp") {
        let exporter = pipe_exporter(alloc, call.rt, folder, &call.env.otlp_traces)?;
        return run(call, matches, exporter);
    }
    let file = AppendFile::new(call.rt, String::from_str(alloc, call.to)?);
    run(call, matches, OtlpJsonSpanExporter::new(alloc, file)?)
}

/// Answers the requests as the configuration and the arguments say.
fn answer(rt: HostRuntime, env: &EnvConfig, matches: &ArgMatches<'_>) -> Result<ExitCode> {
    let to = outlet(rt.alloc(), matches)?;
    let call = Call {
        rt,
        env,
        propagator: &env.propagator(rt.alloc())?,
        log: &logger(rt, env)?,
        is_lines: matches.get_flag("headers"),
        to: to.as_str(),
    };
    export(&call, matches)
}

/// Reads the configuration from the environment, and answers the requests.
fn start(rt: HostRuntime, matches: &ArgMatches<'_>) -> Result<ExitCode> {
    answer(rt, &EnvConfig::from_env(&rt)?, matches)
}

fn main(rt: HostRuntime) -> Result<ExitCode> {
    let words: Vec<String> = std::env::args(&rt)?.collect(rt.alloc())?;
    match command(rt.alloc())?.try_get_matches_from(words.as_slice()) {
        Ok(matches) => start(rt, &matches),
        Err(error) => {
            error.print(&rt)?;
            Ok(ExitCode::from(error.exit_code() as u8))
        }
    }
}
