//! Traces in a file of OTLP's lines: a list of the newest, a picture of one, or a page of either.
#![tactic(auto)]

mod args;
mod chosen;
mod clock;
mod color;
mod details;
mod input;
mod list;
mod logs;
mod page;
mod picture;
mod progress;
mod summary;
mod trace;
mod tree;
mod view;

use anyhow::Result;
use args::{Options, command};
use clap::ArgMatches;
use std::fs::File;
use std::process::ExitCode;
use view::view;

/// Shows the traces of the file.
fn run(rt: HostRuntime, options: &Options<'_>) -> Result<()> {
    if options.file == "-" {
        return view(rt, options, rt.stdin());
    }
    let file = File::open(&rt, options.file)?;
    view(rt, options, file)
}

/// Shows the traces that the arguments ask for.
fn show(rt: HostRuntime, matches: &ArgMatches<'_>) -> Result<ExitCode> {
    let options = Options::of(matches)?;
    run(rt, &options)?;
    Ok(ExitCode::SUCCESS)
}

/// Tells why the arguments are refused, or prints the help.
fn refuse(rt: HostRuntime, error: &clap::Error) -> Result<ExitCode> {
    error.print(&rt)?;
    Ok(ExitCode::from(error.exit_code() as u8))
}

/// Shows the traces that the words of the command line ask for.
fn answer(rt: HostRuntime, words: &[String]) -> Result<ExitCode> {
    match command(rt.alloc())?.try_get_matches_from(words) {
        Ok(matches) => show(rt, &matches),
        Err(error) => refuse(rt, &error),
    }
}

fn main(rt: HostRuntime) -> Result<ExitCode> {
    let words: Vec<String> = std::env::args(&rt)?.collect(rt.alloc())?;
    answer(rt, words.as_slice())
}
