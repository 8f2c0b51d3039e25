//! The lines of a picture.
ghost use Rattle.std.specs.Prelude.{◌≡◌, ◌++◌, IfOk, OnOk, chars, replicate, take};
ghost use Rattle.otel_waterfall.specs.Columns.{name_width, bar_width};
ghost use Rattle.otel_waterfall.specs.Drawn.{look};
ghost use Rattle.otel_waterfall.specs.Line as spec;
ghost use Rattle.otel_waterfall.specs.Name.{columns_of};
ghost use Rattle.otel_waterfall.specs.Picture.{without_last_spaces, duration_column};
ghost use Rattle.otel_waterfall.specs.Picture as picture;

use crate::bar::Scale;
use crate::columns::Style;
use crate::duration::duration_text;
use crate::name::{columns_left, fit, shown_name};
use crate::prefix::push_prefix;
use crate::span::{Outcome, Span};
use std::alloc::{AllocError, Global};

/// The columns of a duration.
const DURATION_WIDTH: usize = 9;

/// Appends `count` spaces.
fn push_spaces(line: &mut Vec<char>, count: usize) -> Result<(), AllocError>
    ensures { OnOk result (line.new.items ≡ line.old.items ++ replicate count 32) }
{
    for _ in 0..count {
        line.push(' ')?;
    }
    Ok(())
}

/// Appends the characters of a text.
fn push_text(line: &mut Vec<char>, text: &str) -> Result<(), AllocError>
    ensures { OnOk result (line.new.items ≡ line.old.items ++ chars text.now) }
{
    for c in text.chars() {
        line.push(c)?;
    }
    Ok(())
}

/// Returns the branches and the name of a span, padded with spaces to the end of the column.
#[tactic(auto, using(crate::proofs::Widths::name_text_columns))]
fn name_column(
    alloc: Global,
    style: Style,
    name: &Vec<char>,
    follows: &[bool],
) -> Result<Vec<char>, AllocError>
    ensures text { IfOk result (λ column.
        column.items ≡ spec.name_text style.is_ascii style.width follows.now name.now.items) }
    ensures width { IfOk result (λ column. columns_of column.items ≡ name_width style.width) }
{
    let mut column = Vec::new(alloc);
    push_prefix(&mut column, style.is_ascii, style.group_limit(), follows)?;
    let columns = style.name_width().saturating_sub(column.len()).max(1);
    let mut name = name.clone()?;
    fit(style.is_ascii, columns, &mut name);
    column.extend_from_slice(name.as_slice())?;
    push_spaces(&mut column, columns_left(name.as_slice(), columns))?;
    Ok(column)
}

/// Returns the text of a status.
pub(crate) fn outcome_text(outcome: Outcome) -> &'static str
    ensures { result.now ≡ spec.outcome_text outcome }
{
    match outcome {
        Outcome::Unset => "",
        Outcome::Ok => "ok",
        Outcome::Error => "error",
    }
}

/// Returns the number of characters up to the last one that isn't a space.
#[tactic(auto, using(crate::proofs::Lines::kept_other, crate::proofs::Lines::kept_space))]
fn len_without_last_spaces(line: &[char]) -> usize
    ensures { take result line.now ≡ without_last_spaces line.now }
{
    let mut kept = 0;
    for (place, c) in line.iter().enumerate() {
        if *c != ' ' {
            kept = place + 1;
        }
    }
    kept
}

/// Appends a duration in nine columns, with a space on either side.
fn push_duration(line: &mut Vec<char>, duration: &str) -> Result<(), AllocError>
    ensures { OnOk result (line.new.items ≡ line.old.items ++ duration_column duration.now) }
{
    push_spaces(line, 1 + DURATION_WIDTH.saturating_sub(duration.len()))?;
    push_text(line, duration)?;
    push_spaces(line, 1)
}

/// Returns the line of a span.
///
/// # Errors
///
/// Returns an error if out of memory.
pub(crate) fn span_line(
    alloc: Global,
    style: Style,
    scale: Scale,
    span: &Span,
    follows: &[bool],
) -> Result<Vec<char>, AllocError>
    requires { scale.cells ≡ bar_width style.width }
    ensures { IfOk result (λ line. line.items
        ≡ picture.span_line style.is_ascii style.width scale.from scale.to (look span.now)
        follows.now) }
{
    let mut line = name_column(alloc, style, &span.name, follows)?;
    let duration = duration_text(alloc, span.start, span.end)?;
    push_duration(&mut line, duration.as_str())?;
    let bar = scale.bar(
        alloc,
        style.is_ascii,
        span.start,
        span.end,
        span.moments.as_slice(),
    )?;
    line.extend_from_slice(bar.as_slice())?;
    push_spaces(&mut line, 1)?;
    push_text(&mut line, outcome_text(span.outcome))?;
    let kept = len_without_last_spaces(line.as_slice());
    line.truncate(kept);
    Ok(line)
}

/// Returns the line of a parent that isn't in the batch: its id, and whether it is in another
/// process according to its first child.
///
/// # Errors
///
/// Returns an error if out of memory.
pub(crate) fn absent_line(
    alloc: Global,
    style: Style,
    child: &Span,
) -> Result<Vec<char>, AllocError>
    ensures { IfOk result (λ line. line.items
        ≡ picture.absent_line style.is_ascii style.width (look child.now)) }
{
    let id = child.parent_span_id;
    let start = if child.is_parent_remote {
        "[remote "
    } else {
        "[missing "
    };
    let text = format!(in alloc; "{start}{id}]")?;
    let mut line = shown_name(alloc, style.is_ascii, text.as_str())?;
    fit(style.is_ascii, style.name_width(), &mut line);
    Ok(line)
}
