//! The width of a picture, its columns, and the characters that it is drawn with.
ghost use Rattle.std.specs.Prelude.{◌≡◌, ◌≤◌, false, true};
ghost use Rattle.otel_waterfall.specs.Columns as spec;

/// The columns after the name that hold no bar: a space, the duration in nine columns, a space, a
/// space and the status in five.
const OTHER_COLUMNS: usize = 17;

/// The width of a picture, at least 40, and whether it is drawn in ASCII.
#[derive(Clone, Copy, Debug)]
pub(crate) struct Style {
    pub width: u16,
    pub is_ascii: bool,
    ghost wide: { 40 ≤ width },
}

impl Style {
    /// Returns the style with 80 columns in UTF-8.
    pub(crate) fn new() -> Style
        ensures width { result.width ≡ 80 }
        ensures utf8 { result.is_ascii ≡ false }
    {
        Style {
            width: 80,
            is_ascii: false,
        }
    }

    /// Returns the style with this width, or with 40 columns if the width is less.
    pub(crate) fn with_width(self, width: u16) -> Style
        ensures width { result.width ≡ spec.picture_width width }
        ensures same { result.is_ascii ≡ self.is_ascii }
    {
        Style {
            width: width.max(40),
            is_ascii: self.is_ascii,
        }
    }

    /// Returns the style in ASCII.
    pub(crate) fn with_ascii(self) -> Style
        ensures ascii { result.is_ascii ≡ true }
        ensures same { result.width ≡ self.width }
    {
        Style {
            width: self.width,
            is_ascii: true,
        }
    }

    /// Returns the number of columns of the name.
    pub(crate) fn name_width(self) -> usize
        ensures { result ≡ spec.name_width self.width }
    {
        2 * self.width as usize / 5
    }

    /// Returns the number of columns of the bar.
    pub(crate) fn bar_width(self) -> usize
        ensures { result ≡ spec.bar_width self.width }
    {
        self.width as usize - self.name_width() - OTHER_COLUMNS
    }

    /// Returns the limit of groups of three columns for the branches in front of a name.
    pub(crate) fn group_limit(self) -> usize
        ensures { result ≡ spec.group_limit self.width }
    {
        (self.name_width() - 8) / 3
    }
}
