//! The branches in front of a name.
ghost use Rattle.std.specs.Prelude.{◌≡◌, ◌<◌, ◌++◌, OnOk};
ghost use Rattle.std.specs.List.{flat_map};
ghost use Rattle.otel_waterfall.specs.Prefix as spec;

use std::alloc::AllocError;

/// Returns the group of an ancestor. `follows` says whether a sibling follows it.
fn rail(is_ascii: bool, follows: bool) -> [char; 3]
    ensures { result ≡ spec.rail is_ascii follows }
{
    match (follows, is_ascii) {
        (true, true) => ['|', ' ', ' '],
        (true, false) => ['│', ' ', ' '],
        (false, _) => [' ', ' ', ' '],
    }
}

/// Returns the group of the span itself. `follows` says whether a sibling follows it.
fn branch(is_ascii: bool, follows: bool) -> [char; 3]
    ensures { result ≡ spec.branch is_ascii follows }
{
    match (follows, is_ascii) {
        (true, true) => ['|', '-', ' '],
        (true, false) => ['├', '─', ' '],
        (false, true) => ['`', '-', ' '],
        (false, false) => ['└', '─', ' '],
    }
}

/// Appends the groups of ancestors.
fn push_rails(line: &mut Vec<char>, is_ascii: bool, ancestors: &[bool]) -> Result<(), AllocError>
    ensures { OnOk result
        (line.new.items ≡ line.old.items ++ flat_map (spec.rail is_ascii) ancestors.now) }
{
    for follows in ancestors {
        line.extend_from_slice(&rail(is_ascii, *follows))?;
    }
    Ok(())
}

/// Appends the characters in front of a name, none for a top row. `follows` says whether a sibling
/// follows each ancestor except the top one, and then the span itself.
///
/// # Errors
///
/// Returns an error if out of memory.
pub(crate) fn push_prefix(
    line: &mut Vec<char>,
    is_ascii: bool,
    limit: usize,
    follows: &[bool],
) -> Result<(), AllocError>
    requires { 0 < limit }
    ensures { OnOk result
        (line.new.items ≡ line.old.items ++ spec.prefix_text is_ascii limit follows.now) }
{
    let Some(own) = follows.last() else {
        return Ok(());
    };
    let kept = (follows.len() - 1).min(limit - 1);
    push_rails(line, is_ascii, &follows[..kept])?;
    line.extend_from_slice(&branch(is_ascii, *own))
}
