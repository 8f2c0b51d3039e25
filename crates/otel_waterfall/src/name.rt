//! Names as they are shown on a terminal.
ghost use Rattle.std.specs.Prelude.{◌≡◌, ◌<◌, ◌≤◌, ◌-◌, length, IfOk};
ghost use Rattle.otel_waterfall.specs.Name as spec;

use std::alloc::{AllocError, Global};
use ucd_category::GeneralCategory;
use unicode_width::UnicodeWidthChar;

/// Returns `true` if a character of this category can steer a terminal.
fn steers(category: GeneralCategory) -> bool
    ensures { result ≡ spec.steers category }
{
    matches!(
        category,
        GeneralCategory::Control
            | GeneralCategory::Format
            | GeneralCategory::LineSeparator
            | GeneralCategory::ParagraphSeparator
    )
}

/// Returns the character as it is shown: `?` if it can steer a terminal or, in ASCII, if it is
/// above U+007E.
pub(crate) fn shown(is_ascii: bool, c: char) -> char
    ensures { result ≡ spec.shown is_ascii c }
{
    if steers(GeneralCategory::for_char(c)) || (is_ascii && c > '~') {
        '?'
    } else {
        c
    }
}

/// Returns the characters that show a name.
///
/// # Errors
///
/// Returns an error if out of memory.
pub fn shown_name(alloc: Global, is_ascii: bool, name: &str) -> Result<Vec<char>, AllocError>
    ensures { IfOk result (λ chars. chars.items ≡ spec.shown_name is_ascii name.now) }
{
    let mut chars = Vec::new(alloc);
    for c in name.chars() {
        chars.push(shown(is_ascii, c))?;
    }
    Ok(chars)
}

/// Returns the columns of a character, at most 3: 2 if it is wide, 0 if it is a combining mark.
fn char_columns(c: char) -> usize
    ensures value { result ≡ spec.char_columns c }
    ensures few { result ≤ 3 }
{
    c.width().unwrap_or(0)
}

/// Returns the number of characters at the front of a name that fit into `columns` columns.
#[tactic(auto, using(crate::proofs::Widths::count_within_drop))]
fn count_within(name: &[char], columns: usize) -> usize
    ensures count { result ≡ spec.count_within columns name.now }
    ensures bound { result ≤ length name.now }
{
    let mut left = columns;
    let mut count = 0;
    for c in name {
        let width = char_columns(*c);
        if width > left {
            return count;
        }
        left -= width;
        count += 1;
    }
    count
}

/// Returns the number of columns of `columns` that a name leaves empty.
pub fn columns_left(name: &[char], columns: usize) -> usize
    ensures { result ≡ columns - spec.columns_of name.now }
{
    let mut left = columns;
    for c in name {
        left = left.saturating_sub(char_columns(*c));
    }
    left
}

/// Returns the character at the end of a name that is cut.
fn cut_char(is_ascii: bool) -> char
    ensures { result ≡ spec.cut_char is_ascii }
{
    if is_ascii { '~' } else { '…' }
}

/// Cuts a name to `columns` columns, without allocating. If it was longer, it ends in `…` or `~`.
#[tactic(auto, using(crate::proofs::Widths::fits))]
pub fn fit(is_ascii: bool, columns: usize, name: &mut Vec<char>)
    requires { 0 < columns }
    ensures { name.new.items ≡ spec.fitted is_ascii columns name.old.items }
{
    if count_within(name.as_slice(), columns) < name.len() {
        let kept = count_within(name.as_slice(), columns - 1);
        name[kept] = cut_char(is_ascii);
        name.truncate(kept + 1);
    }
}
