//! Warns of variables of the specification that the SDK doesn't support, or supports in part.
ghost use Rattle.std.specs.Prelude.{◌≡◌, ◌++◌, OnOk};
ghost use Rattle.std.specs.Str.Lines.{lines};
ghost use Rattle.otel_sdk.specs.EnvUnsupported as spec;
ghost use Rattle.otel_sdk.specs.EnvTexts.{variables_of};

use super::texts::{is_named, text_of};
use super::warning::{EnvFault, EnvWarning, Instead, warn};
use std::alloc::{AllocError, Global};

/// The names of the variables that aren't supported, a line each.
pub(super) const UNSUPPORTED: &str = concat!(
    "OTEL_CONFIG_FILE\n",
    "OTEL_LOG_LEVEL\n",
    "OTEL_LOGRECORD_ATTRIBUTE_VALUE_LENGTH_LIMIT\n",
    "OTEL_EXPORTER_OTLP_TRACES_TIMEOUT\n",
    "OTEL_EXPORTER_OTLP_LOGS_TIMEOUT\n",
    "OTEL_EXPORTER_OTLP_INSECURE\n",
    "OTEL_EXPORTER_OTLP_TRACES_INSECURE\n",
    "OTEL_EXPORTER_OTLP_LOGS_INSECURE\n",
    "OTEL_EXPORTER_OTLP_CERTIFICATE\n",
    "OTEL_EXPORTER_OTLP_TRACES_CERTIFICATE\n",
    "OTEL_EXPORTER_OTLP_LOGS_CERTIFICATE\n",
    "OTEL_EXPORTER_OTLP_CLIENT_KEY\n",
    "OTEL_EXPORTER_OTLP_TRACES_CLIENT_KEY\n",
    "OTEL_EXPORTER_OTLP_LOGS_CLIENT_KEY\n",
    "OTEL_EXPORTER_OTLP_CLIENT_CERTIFICATE\n",
    "OTEL_EXPORTER_OTLP_TRACES_CLIENT_CERTIFICATE\n",
    "OTEL_EXPORTER_OTLP_LOGS_CLIENT_CERTIFICATE\n",
);

/// Adds a warning if the variable names another protocol than `http/json`.
///
/// # Errors
///
/// `AllocError` if out of memory.
fn warn_of_protocol(
    alloc: Global,
    vars: &[(String, String)],
    warnings: &mut Vec<EnvWarning>,
    name: &'static str,
) -> Result<(), AllocError>
    ensures { OnOk result (warnings.new.items ≡ warnings.old.items
        ++ spec.protocol_warnings name.now (variables_of vars.now)) }
{
    let text = text_of(vars, name);
    let understood = is_named(text, "http/json");
    warn(alloc, warnings, understood, name, text, Instead::HttpJson)
}

/// Adds a warning for each variable of a protocol that names another one than `http/json`.
///
/// # Errors
///
/// `AllocError` if out of memory.
fn warn_of_protocols(
    alloc: Global,
    vars: &[(String, String)],
    warnings: &mut Vec<EnvWarning>,
) -> Result<(), AllocError>
    ensures { OnOk result (warnings.new.items
        ≡ warnings.old.items ++ spec.all_protocol_warnings (variables_of vars.now)) }
{
    warn_of_protocol(alloc, vars, warnings, "OTEL_EXPORTER_OTLP_PROTOCOL")?;
    warn_of_protocol(alloc, vars, warnings, "OTEL_EXPORTER_OTLP_TRACES_PROTOCOL")?;
    warn_of_protocol(alloc, vars, warnings, "OTEL_EXPORTER_OTLP_LOGS_PROTOCOL")?;
    Ok(())
}

/// Adds a warning if the variable names a compression.
///
/// # Errors
///
/// `AllocError` if out of memory.
fn warn_of_compression(
    alloc: Global,
    vars: &[(String, String)],
    warnings: &mut Vec<EnvWarning>,
    name: &'static str,
) -> Result<(), AllocError>
    ensures { OnOk result (warnings.new.items ≡ warnings.old.items
        ++ spec.compression_warnings name.now (variables_of vars.now)) }
{
    let text = text_of(vars, name);
    let understood = is_named(text, "none");
    let instead = Instead::Unset(EnvFault::Unsupported);
    warn(alloc, warnings, understood, name, text, instead)
}

/// Adds a warning for each variable that names a compression.
///
/// # Errors
///
/// `AllocError` if out of memory.
fn warn_of_compressions(
    alloc: Global,
    vars: &[(String, String)],
    warnings: &mut Vec<EnvWarning>,
) -> Result<(), AllocError>
    ensures { OnOk result (warnings.new.items
        ≡ warnings.old.items ++ spec.all_compression_warnings (variables_of vars.now)) }
{
    warn_of_compression(alloc, vars, warnings, "OTEL_EXPORTER_OTLP_COMPRESSION")?;
    warn_of_compression(
        alloc,
        vars,
        warnings,
        "OTEL_EXPORTER_OTLP_TRACES_COMPRESSION",
    )?;
    warn_of_compression(alloc, vars, warnings, "OTEL_EXPORTER_OTLP_LOGS_COMPRESSION")?;
    Ok(())
}

/// Adds a warning if the variable, which isn't supported, is set.
///
/// # Errors
///
/// `AllocError` if out of memory.
fn warn_of_variable(
    alloc: Global,
    vars: &[(String, String)],
    warnings: &mut Vec<EnvWarning>,
    name: &'static str,
) -> Result<(), AllocError>
    ensures { OnOk result (warnings.new.items ≡ warnings.old.items
        ++ spec.variable_warnings (variables_of vars.now) name.now) }
{
    let text = text_of(vars, name);
    let instead = Instead::Unset(EnvFault::Unsupported);
    warn(alloc, warnings, false, name, text, instead)
}

/// Adds a warning for each variable of these names, a line each, that is set.
///
/// # Errors
///
/// `AllocError` if out of memory.
fn warn_of_variables(
    alloc: Global,
    vars: &[(String, String)],
    warnings: &mut Vec<EnvWarning>,
    names: &'static str,
) -> Result<(), AllocError>
    ensures { OnOk result (warnings.new.items ≡ warnings.old.items
        ++ spec.names_warnings (lines names.now) (variables_of vars.now)) }
{
    for name in names.lines() {
        warn_of_variable(alloc, vars, warnings, name)?;
    }
    Ok(())
}

/// Adds a warning for each variable that asks for something that isn't supported.
///
/// # Errors
///
/// `AllocError` if out of memory.
pub(super) fn warn_of_all(
    alloc: Global,
    vars: &[(String, String)],
    warnings: &mut Vec<EnvWarning>,
) -> Result<(), AllocError>
    ensures { OnOk result (warnings.new.items
        ≡ warnings.old.items ++ spec.unsupported_warnings (variables_of vars.now)) }
{
    warn_of_protocols(alloc, vars, warnings)?;
    warn_of_compressions(alloc, vars, warnings)?;
    warn_of_variables(alloc, vars, warnings, UNSUPPORTED)
}
