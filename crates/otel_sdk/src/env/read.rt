//! A configuration from the environment of the process.
ghost use Rattle.std.specs.Prelude.{◌++◌, All, IfOk};
ghost use Rattle.otel_sdk.specs.EnvConfig as spec;
ghost use Rattle.otel_sdk.specs.EnvConfig.{config_of};
ghost use Rattle.otel_sdk.specs.EnvTexts.{Variables};
ghost use Rattle.otel_sdk.specs.EnvVariables.{AreRead, names_in};
ghost use Rattle.otel_sdk.specs.declared.env.help.TheConstants.{HELP};
ghost use Rattle.otel_sdk.specs.declared.env.unsupported.TheConstants.{UNSUPPORTED};

use super::help::HELP;
use super::unsupported::UNSUPPORTED;
use super::variables::{VariableSource, variables};
use super::{EnvConfig, EnvWarning};
use std::alloc::{AllocError, AllocGlobal};
use std::io::Eprint;

/// An output for warnings. Every runtime with a standard error is one. Not in the Rust crate.
///
/// No contract says what an output gets. So a call ensures a ghost relation of which code that is
/// generic over this trait knows nothing: only the call shows that the warning was told.
pub trait WarningSink {
    ghost use Rattle.otel_sdk.specs.declared.env.warning.EnvWarning.{EnvWarning};

    ghost is_told: { EnvWarning → Type 0 };

    /// Writes the warning, as a line. An error is ignored.
    fn tell(&self, warning: &EnvWarning)
        ensures { is_told warning.now };
}

impl<R: Eprint> WarningSink for R {
    ghost is_told = { λ _. Unit {0} };

    fn tell(&self, warning: &EnvWarning) {
        drop(eprintln!(self; "{warning}"));
    }
}

/// Tells each warning, in order.
fn tell_each<S: WarningSink>(sink: &S, warnings: &[EnvWarning])
    ensures { All S.is_told warnings.now }
{
    for warning in warnings {
        sink.tell(warning);
    }
}

impl EnvConfig {
    /// Reads the configuration from the environment of the process, as [`EnvConfig::from_vars`]
    /// does from its variables, and writes each warning to standard error, as a line. A text that
    /// isn't UTF-8 counts as U+FFFD.
    ///
    /// Reads the variables of [`EnvConfig::HELP`], and those that give a warning if they are set.
    ///
    /// # Errors
    ///
    /// `AllocError` if out of memory.
    pub fn from_env<R>(rt: &R) -> Result<EnvConfig, AllocError>
    where
        R: VariableSource + WarningSink + AllocGlobal,
        ensures read { IfOk result (λ config. (vars : Variables)
            × AreRead R.VariableSource.may_be (names_in HELP.now ++ names_in UNSUPPORTED.now) vars
            × spec.IsConfigOf vars (config_of config)) }
        ensures told { IfOk result (λ config. All R.WarningSink.is_told config.warnings.items) }
    {
        let mut vars = variables(rt, HELP)?;
        vars.append(&mut variables(rt, UNSUPPORTED)?)?;
        let config = EnvConfig::from_vars(rt.alloc(), vars.as_slice())?;
        tell_each(rt, config.warnings.as_slice());
        Ok(config)
    }
}
