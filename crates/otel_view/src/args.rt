//! The arguments.

use anyhow::{Context, Result};
use clap::{Arg, ArgAction, ArgMatches, Command};
use jiff::SignedDuration;
use std::alloc::{AllocError, Global};

/// The number of traces that are listed unless another is given.
const LIMIT: usize = 20;

/// The kind of an argument.
#[derive(Clone, Copy)]
enum Kind {
    /// A word that must be given.
    Required,
    /// A word that may be given.
    Optional,
    /// An option without a value.
    Flag,
    /// An option with a value, for which this word stands.
    Value(&'static str),
}

/// The arguments: the name, the kind and the help of each.
const ARGUMENTS: [(&str, Kind, &str); 8] = [
    (
        "FILE",
        Kind::Required,
        "Lines of OTLP in JSON; - is standard input",
    ),
    (
        "ID",
        Kind::Optional,
        "The first digits of the id of a trace, which is drawn",
    ),
    (
        "service",
        Kind::Value("NAME"),
        "Lists traces with a span of this service",
    ),
    ("errors", Kind::Flag, "Lists traces with an error"),
    (
        "slower",
        Kind::Value("TIME"),
        "Lists traces that took longer, such as 100ms",
    ),
    (
        "limit",
        Kind::Value("COUNT"),
        "The number of traces listed, 20 unless given",
    ),
    (
        "html",
        Kind::Value("PAGE"),
        "Writes a page of HTML to this file instead",
    ),
    (
        "logs",
        Kind::Value("FILE"),
        "Shows the log records of this file with the spans of ID",
    ),
];

/// The arguments, as they were given.
#[derive(Clone, Copy)]
pub struct Options<'a> {
    /// The file, `-` for standard input.
    pub file: &'a str,
    /// The first digits of the id of the trace to draw.
    pub id: Option<&'a str>,
    /// Only traces with a span of this service.
    pub service: Option<&'a str>,
    /// Only traces with an error.
    pub errors: bool,
    /// Only traces that took longer than these nanoseconds.
    pub slower: Option<u64>,
    /// The number of traces that are listed.
    pub limit: usize,
    /// The file that a page of HTML is written to.
    pub html: Option<&'a str>,
    /// The file with the log records of the trace.
    pub logs: Option<&'a str>,
}

/// Returns the argument of this name and kind.
fn argument<'a>(alloc: Global, name: &'a str, kind: Kind) -> Arg<'a> {
    let arg = Arg::new(alloc, name);
    match kind {
        Kind::Required => arg.value_name(name).required(true),
        Kind::Optional => arg.value_name(name),
        Kind::Flag => arg.long(name).action(ArgAction::SetTrue),
        Kind::Value(word) => arg.long(name).value_name(word).action(ArgAction::Set),
    }
}

/// Returns the command.
pub fn command<'a>(alloc: Global) -> Result<Command<'a>, AllocError> {
    let mut command = Command::new(alloc, "otel_view")
        .version("0.33.1")
        .about("Lists the newest traces of a file, or draws one");
    for (name, kind, help) in ARGUMENTS {
        command = command.arg(argument(alloc, name, kind).help(help))?;
    }
    Ok(command)
}

/// Reads a duration, in nanoseconds.
fn nanoseconds(text: &str) -> Result<u64> {
    let duration = text
        .parse::<SignedDuration>()
        .context("--slower wants a time such as 100ms")?;
    u64::try_from(duration.as_nanos()).context("--slower wants a time from 0 to 500 years")
}

/// Reads the duration that a trace must exceed.
fn slower(text: Option<&str>) -> Result<Option<u64>> {
    match text {
        Some(text) => Ok(Some(nanoseconds(text)?)),
        None => Ok(None),
    }
}

/// Reads the number of traces that are listed.
fn limit(text: Option<&str>) -> Result<usize> {
    match text {
        Some(text) => text
            .parse::<usize>()
            .context("--limit wants a whole number"),
        None => Ok(LIMIT),
    }
}

impl<'a> Options<'a> {
    /// Returns the arguments.
    pub fn of(matches: &ArgMatches<'a>) -> Result<Options<'a>> {
        let slower = slower(matches.get_str("slower"))?;
        let limit = limit(matches.get_str("limit"))?;
        Ok(Options {
            file: matches.get_str("FILE").unwrap_or("-"),
            id: matches.get_str("ID"),
            service: matches.get_str("service"),
            errors: matches.get_flag("errors"),
            slower,
            limit,
            html: matches.get_str("html"),
            logs: matches.get_str("logs"),
        })
    }
}
