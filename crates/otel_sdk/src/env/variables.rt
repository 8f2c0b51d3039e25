//! Reading variables of the environment.
ghost use Rattle.std.specs.Prelude.{◌≡◌, ◌++◌, IfOk, OnOk, string_bytes};
ghost use Rattle.std.specs.Option.{option_map};
ghost use Rattle.otel_sdk.specs.EnvTexts.{Variables, variables_of};
ghost use Rattle.otel_sdk.specs.EnvVariables.{AreRead, first_word, name_in, names_in};

use std::alloc::{AllocError, AllocGlobal};
use std::env::{Env, VarError, var};

/// A source of environment variables. Every runtime with an environment is one. Not in the Rust
/// crate.
///
/// No contract says what an environment holds. So a call ensures a ghost relation of which code
/// that is generic over this trait knows nothing: only the call shows that the variable was read.
pub trait VariableSource {
    ghost use Rattle.std.specs.Prelude.{ℕ, List, Option};

    ghost may_be: { List ℕ → Option (List ℕ) → Type 0 };

    /// Returns the text of the variable with this name, or `None` if the variable isn't set. A text
    /// that isn't UTF-8 counts as U+FFFD.
    ///
    /// # Errors
    ///
    /// `AllocError` if out of memory.
    fn variable(&self, name: &str) -> Result<Option<String>, AllocError>
        ensures { IfOk result (λ text. may_be name.now (option_map string_bytes text)) };
}

impl<R: Env + AllocGlobal> VariableSource for R {
    ghost may_be = { λ _ _. Unit {0} };

    fn variable(&self, name: &str) -> Result<Option<String>, AllocError> {
        match var(self, name) {
            Ok(text) => Ok(Some(text)),
            Err(VarError::NotPresent) => Ok(None),
            Err(VarError::NotUnicode) => Ok(Some(String::from_str(self.alloc(), "\u{fffd}")?)),
            Err(VarError::OutOfMemory) => Err(AllocError),
        }
    }
}

/// Returns the text before the first blank.
fn first_word(line: &str) -> &str
    ensures { result.now ≡ first_word line.now }
{
    match line.split_once(' ') {
        Some((word, _rest)) => word,
        None => line,
    }
}

/// Reads the variable that the line of a help describes, and adds it if it is set.
///
/// # Errors
///
/// `AllocError` if out of memory.
fn add_variable<R: VariableSource + AllocGlobal>(
    rt: &R,
    vars: &mut Vec<(String, String)>,
    line: &str,
) -> Result<(), AllocError>
    ensures { OnOk result ((more : Variables)
        × AreRead R.VariableSource.may_be (name_in line.now) more
        × (variables_of vars.new.items ≡ variables_of vars.old.items ++ more)) }
{
    let name = first_word(line);
    if name.is_empty() {
        return Ok(());
    }
    if let Some(text) = rt.variable(name)? {
        vars.push((String::from_str(rt.alloc(), name)?, text))?;
    }
    Ok(())
}

/// Reads the variables that the help describes. Returns those that are set, in order.
///
/// # Errors
///
/// `AllocError` if out of memory.
pub(super) fn variables<R: VariableSource + AllocGlobal>(
    rt: &R,
    help: &str,
) -> Result<Vec<(String, String)>, AllocError>
    ensures { IfOk result (λ vars. AreRead R.VariableSource.may_be (names_in help.now)
        (variables_of vars.items)) }
{
    let mut vars = Vec::new(rt.alloc());
    for line in help.lines() {
        add_variable(rt, &mut vars, line)?;
    }
    Ok(vars)
}
