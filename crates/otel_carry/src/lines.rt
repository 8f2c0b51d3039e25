//! The lines that the program reads: an attach, or a detach.
ghost use Rattle.std.specs.Prelude.{◌≡◌, ◌↔◌, ℕ, IfOk, IfErr, IsTrue, Some};
ghost use Rattle.otel_carry.specs.Lines.{Reads, IsFault, IsAttach, IsDetach, IsName, IsNumber};
ghost use Rattle.otel_carry.specs.Lines.{fault_text, first_word};

use std::fmt;

/// The request of a line.
#[derive(Clone, Copy)]
pub enum Line<'a> {
    /// `attach NAME` or `attach NAME STATE`: attaches a context with this name and, if given, this
    /// trace state.
    Attach {
        /// One or more bytes `!` to `~`.
        name: &'a str,
        /// Everything after the second space.
        state: Option<&'a str>,
    },
    /// `detach N`: detaches the context attached by attach number N, counted from 0.
    Detach(usize),
}

/// The reason why a line can't be carried out. Its `Display` prints the program's message.
#[derive(Clone, Copy, Debug, PartialEq, Eq)]
pub enum Fault {
    /// The line starts neither with `attach ` nor with `detach `.
    UnknownCommand,
    /// The name of an attach is empty, or has a byte outside `!` to `~`.
    BadName,
    /// The trace state of an attach isn't valid by the W3C's rules.
    BadTraceState,
    /// The number of a detach isn't one or more decimal digits, or is too large for a `usize`.
    BadNumber,
}

impl fmt::Display for Fault {
    ghost output = { λ fault. Some (fault_text fault) };

    fn fmt<W: fmt::Write>(&self, f: &mut fmt::Formatter<W>) -> fmt::Result {
        f.write_str(match self {
            Fault::UnknownCommand => "unknown command",
            Fault::BadName => "bad name",
            Fault::BadTraceState => "bad trace state",
            Fault::BadNumber => "bad number",
        })
    }
}

/// Returns the request of the line. Doesn't allocate.
///
/// # Errors
///
/// The fault of the line's form. Doesn't check the trace state, so never returns `BadTraceState`.
pub fn parse(line: &str) -> Result<Line<'_>, Fault>
    ensures line { IfOk result (Reads line.now) }
    ensures fault { IfErr result (IsFault line.now) }
{
    if let Some(attach) = line.strip_prefix("attach ") {
        return attach_of(attach);
    }
    if let Some(detach) = line.strip_prefix("detach ") {
        return detach_of(detach);
    }
    Err(Fault::UnknownCommand)
}

/// Parses the text after `attach `.
fn attach_of(rest: &str) -> Result<Line<'_>, Fault>
    ensures line { IfOk result (IsAttach rest.now) }
    ensures fault { IfErr result (λ fault.
        (fault ≡ Fault.BadName) × ¬ IsName (first_word rest.now)) }
{
    let (name, state) = match rest.split_once(' ') {
        Some((name, state)) => (name, Some(state)),
        None => (rest, None),
    };
    if is_name(name) {
        Ok(Line::Attach { name, state })
    } else {
        Err(Fault::BadName)
    }
}

fn is_name(name: &str) -> bool
    ensures { IsTrue result ↔ IsName name.now }
{
    !name.is_empty() && name.bytes().all(|byte| byte.is_ascii_graphic())
}

/// Parses the text after `detach `.
fn detach_of(digits: &str) -> Result<Line<'_>, Fault>
    ensures line { IfOk result (IsDetach digits.now) }
    ensures fault { IfErr result (λ fault.
        (fault ≡ Fault.BadNumber) × ((n : ℕ) → ¬ IsNumber digits.now n)) }
{
    // `parse` would accept a sign.
    if digits.starts_with('+') {
        return Err(Fault::BadNumber);
    }
    match digits.parse::<usize>() {
        Ok(number) => Ok(Line::Detach(number)),
        Err(_) => Err(Fault::BadNumber),
    }
}
