//! How much of a long file was read.
ghost use Rattle.std.specs.Prelude.{◌≡◌, IfOk, string_bytes};
ghost use Rattle.otel_view.specs.Progress as spec;

use std::alloc::{AllocError, Global};
use std::io::{self, IsTerminal, Write};

/// The bytes after which it is told again: 16 MiB.
const STEP: u64 = 1 << 24;

/// What was read of a file.
#[derive(Clone, Copy)]
pub struct Count {
    /// The number of lines.
    pub lines: u64,
    /// The number of their bytes.
    pub bytes: u64,
}

impl Count {
    /// Returns the count with one more line, of this many bytes.
    pub fn with_line(self, bytes: usize) -> Count
        ensures { result ≡ spec.with_line bytes self }
    {
        Count {
            lines: self.lines.saturating_add(1),
            bytes: self.bytes.saturating_add(bytes as u64),
        }
    }

    /// Returns the number of steps of 16 MiB.
    fn steps(self) -> u64
        ensures { result ≡ spec.steps self }
    {
        self.bytes / STEP
    }

    /// Returns the text that tells of it, in place of an earlier one on the same line.
    fn text(self, alloc: Global) -> Result<String, AllocError>
        ensures { IfOk result (λ text. string_bytes text ≡ spec.text self) }
    {
        let size = self.bytes >> 20;
        let lines = self.lines;
        format!(in alloc; "\r{size} MiB, {lines} lines")
    }
}

/// Tells on standard error how much was read, if that is a terminal.
#[derive(Clone, Copy)]
pub struct Progress {
    rt: HostRuntime,
    is_shown: bool,
}

impl Progress {
    /// Returns the progress that standard error shows.
    pub fn new(rt: HostRuntime) -> Progress {
        Progress {
            rt,
            is_shown: rt.stderr().is_terminal(),
        }
    }

    /// Tells how much was read, if a step was completed after `before`.
    pub fn tell(self, before: Count, now: Count) -> io::Result<()> {
        if !self.is_shown || now.steps() == before.steps() {
            return Ok(());
        }
        let text = now.text(self.rt.alloc())?;
        self.rt.stderr().write_all(text.as_bytes())
    }

    /// Removes the text at the end.
    pub fn clear(self, now: Count) -> io::Result<()> {
        if !self.is_shown || now.steps() == 0 {
            return Ok(());
        }
        self.rt.stderr().write_all(b"\r\x1b[K")
    }
}
