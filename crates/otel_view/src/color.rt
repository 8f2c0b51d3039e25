//! The colours of texts.
ghost use Rattle.std.specs.Prelude.{◌≡◌, ◌++◌, OnOk, string_bytes};
ghost use Rattle.otel_view.specs.Color as spec;

use std::alloc::AllocError;
use std::io::IsTerminal;

/// How a text is shown.
#[derive(Clone, Copy)]
pub enum Paint {
    /// As it is.
    Plain,
    /// Stronger than other texts.
    Strong,
    /// As an error.
    Error,
}

impl Paint {
    /// Returns what is written in front of the text.
    fn start(self) -> &'static str
        ensures { result.now ≡ spec.start self }
    {
        match self {
            Paint::Plain => "",
            Paint::Strong => "\x1b[1m",
            Paint::Error => "\x1b[31m",
        }
    }

    /// Returns what is written after the text.
    fn end(self) -> &'static str
        ensures { result.now ≡ spec.end self }
    {
        match self {
            Paint::Plain => "",
            Paint::Strong | Paint::Error => "\x1b[0m",
        }
    }

    /// Appends a text that is shown so.
    ///
    /// # Errors
    ///
    /// `AllocError` if out of memory.
    pub fn push(self, text: &mut String, shown: &str) -> Result<(), AllocError>
        ensures { OnOk result
            (string_bytes text.new ≡ string_bytes text.old ++ spec.painted self shown.now) }
    {
        text.push_str(self.start())?;
        text.push_str(shown)?;
        text.push_str(self.end())
    }
}

/// Whether texts are coloured.
#[derive(Clone, Copy)]
pub struct Colors {
    /// Whether they are.
    pub are_on: bool,
}

/// Returns whether the variable is set to a text that isn't empty.
fn is_set(rt: HostRuntime, name: &str) -> bool {
    match std::env::var(&rt, name) {
        Ok(text) => !text.is_empty(),
        Err(_) => false,
    }
}

/// Returns whether the variable `TERM` names a terminal without colours.
fn is_dumb(rt: HostRuntime) -> bool {
    match std::env::var(&rt, "TERM") {
        Ok(text) => text.as_str() == "dumb",
        Err(_) => false,
    }
}

impl Colors {
    /// Returns whether texts on standard output are coloured: on a terminal, unless the variable
    /// `NO_COLOR` is set or `TERM` is `dumb`.
    pub fn of_output(rt: HostRuntime) -> Colors {
        Colors {
            are_on: rt.stdout().is_terminal() && !is_set(rt, "NO_COLOR") && !is_dumb(rt),
        }
    }

    /// Returns how the text is shown.
    pub fn paint(self, paint: Paint) -> Paint
        ensures { result ≡ spec.paint self.are_on paint }
    {
        if self.are_on { paint } else { Paint::Plain }
    }

    /// Returns how an error is shown, or another text.
    pub fn error_if(self, is_error: bool) -> Paint
        ensures { result ≡ spec.error_if self.are_on is_error }
    {
        if is_error {
            self.paint(Paint::Error)
        } else {
            Paint::Plain
        }
    }
}
