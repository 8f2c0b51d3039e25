//! Reads attaches and detaches from standard input, runs them, and prints the positions of the
//! contexts, the texts injected from the current one, and the context extracted again.
#![tactic(auto)]

pub mod carry;
mod events;
mod extraction;
mod failure;
mod input;
mod lines;
mod name_member;
mod report;

use name_member::NameMember;
use opentelemetry::propagation::{TextMapCompositePropagator, TextMapPropagator};
use otel_propagators::{BaggagePropagator, TraceContextPropagator};
use std::alloc::{AllocError, Global};
use std::io::{BufWriter, Stdin, Stdout};
use std::process::ExitCode;

/// Runs the input with a composite of `NameMember` and the propagators of the W3C headers.
fn serve(alloc: Global, input: Stdin, output: Stdout) -> Result<u8, AllocError> {
    let mut members: Vec<Box<dyn TextMapPropagator>> = Vec::new(alloc);
    members.push(Box::new(alloc, NameMember::new(alloc)?)?)?;
    members.push(Box::new(alloc, TraceContextPropagator::new(alloc)?)?)?;
    members.push(Box::new(alloc, BaggagePropagator::new(alloc)?)?)?;
    let composite = TextMapCompositePropagator::new(alloc, members)?;
    let mut output = BufWriter::new(alloc, output).map_err(|_| AllocError)?;
    Ok(carry::carry(alloc, input, &mut output, &composite))
}

fn main(rt: HostRuntime) -> ExitCode {
    match serve(rt.alloc(), rt.stdin(), rt.stdout()) {
        Ok(status) => ExitCode::from(status),
        Err(_) => {
            let _ = rt.println("no memory");
            ExitCode::FAILURE
        }
    }
}
