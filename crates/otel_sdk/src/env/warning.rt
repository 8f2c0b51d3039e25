//! Warnings about the texts of environment variables.
ghost use Rattle.std.specs.Prelude.{◌≡◌, ◌++◌, OnOk};
ghost use Rattle.otel_sdk.specs.EnvTexts.{warned};

use opentelemetry::StringValue;
use std::alloc::{AllocError, Global};
use std::fmt;

/// Why a variable counts as unset.
#[derive(Clone, Copy, Debug, PartialEq, Eq)]
pub enum EnvFault {
    /// The text has more than 65,000 bytes.
    Length,
    /// The text isn't a URL with a host.
    Url,
    /// The URL's scheme isn't `http` or `https`.
    Scheme,
    /// The URL has user information (RFC 3986, section 3.2.1), such as `user:password@`.
    UserInfo,
    /// The URL has a query or a fragment, to which no path of a signal can be added.
    Query,
    /// The specification has this variable, or this text of it, but the SDK doesn't.
    Unsupported,
}

impl fmt::Display for EnvFault {
    ghost use Rattle.std.specs.Prelude.{Some};
    ghost use Rattle.otel_sdk.specs.EnvWarnings.{fault_text};

    ghost output = { λ fault. Some (fault_text fault) };

    fn fmt<W: fmt::Write>(&self, f: &mut fmt::Formatter<W>) -> fmt::Result {
        match self {
            EnvFault::Length => f.write_str("it has more than 65000 bytes"),
            EnvFault::Url => f.write_str("it isn't a URL with a host"),
            EnvFault::Scheme => f.write_str("its scheme isn't http or https"),
            EnvFault::UserInfo => f.write_str("it has user information"),
            EnvFault::Query => f.write_str("it has a query or a fragment"),
            EnvFault::Unsupported => f.write_str("it is not supported"),
        }
    }
}

/// What counts instead of the text of a variable.
#[derive(Clone, Copy, Debug, PartialEq, Eq)]
pub enum Instead {
    /// This number.
    Number(u64),
    /// No limit.
    NoLimit,
    /// Nothing: the text is left out.
    Nothing,
    /// The text `false`.
    False,
    /// The text `parentbased_always_on`.
    ParentBasedAlwaysOn,
    /// The text `otlp`.
    Otlp,
    /// The text `http/json`.
    HttpJson,
    /// The text `tracecontext,baggage`.
    W3cPropagators,
    /// Nothing: the variable counts as unset, for this reason.
    Unset(EnvFault),
}

impl fmt::Display for Instead {
    ghost use Rattle.std.specs.Prelude.{Some};
    ghost use Rattle.otel_sdk.specs.EnvWarnings.{instead_text};

    ghost output = { λ instead. Some (instead_text instead) };

    fn fmt<W: fmt::Write>(&self, f: &mut fmt::Formatter<W>) -> fmt::Result {
        match self {
            Instead::Number(number) => write!(f, "{number} counts instead"),
            Instead::NoLimit => f.write_str("there is no limit"),
            Instead::Nothing => f.write_str("it is left out"),
            Instead::False => f.write_str("false counts instead"),
            Instead::ParentBasedAlwaysOn => f.write_str("parentbased_always_on counts instead"),
            Instead::Otlp => f.write_str("otlp counts instead"),
            Instead::HttpJson => f.write_str("http/json counts instead"),
            Instead::W3cPropagators => f.write_str("tracecontext,baggage counts instead"),
            Instead::Unset(fault) => write!(f, "{fault}, and counts as unset"),
        }
    }
}

/// A warning that the text of an environment variable, or a part of it, doesn't count.
///
/// `Display` writes one line, in which the text is quoted and escaped. No password of a URL and no
/// value of a header is in a warning.
#[derive(Debug, Drop)]
pub struct EnvWarning {
    /// The name of the variable.
    pub name: StringValue,
    /// The text, or the part of it that doesn't count: of a header its name, and `..` in place of a
    /// URL with an `@` and of a long text.
    pub value: StringValue,
    /// What counts instead.
    pub instead: Instead,
}

impl fmt::Display for EnvWarning {
    ghost use Rattle.otel_sdk.specs.EnvWarnings.{warning_text};

    ghost output = { warning_text };

    fn fmt<W: fmt::Write>(&self, f: &mut fmt::Formatter<W>) -> fmt::Result {
        let value = self.value.as_str();
        write!(f, "{} can't be {value:?}: {}", self.name, self.instead)
    }
}

/// Adds a warning, unless the text is understood or empty.
///
/// # Errors
///
/// `AllocError` if out of memory.
pub(super) fn warn(
    alloc: Global,
    warnings: &mut Vec<EnvWarning>,
    understood: bool,
    name: &'static str,
    text: &str,
    instead: Instead,
) -> Result<(), AllocError>
    ensures { OnOk result (warnings.new.items
        ≡ warnings.old.items ++ warned understood name.now text.now instead) }
{
    if understood || text.is_empty() {
        return Ok(());
    }
    warnings.push(EnvWarning {
        name: StringValue::from(name),
        value: StringValue::from(String::from_str(alloc, text)?),
        instead,
    })?;
    Ok(())
}
