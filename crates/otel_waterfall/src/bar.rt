//! The bar of a span.
ghost use Rattle.std.specs.Prelude.{◌≡◌, ◌<◌, ◌≤◌, ◌-◌, ◌^◌, IfOk};
ghost use Rattle.otel_waterfall.specs.Bar as spec;

use std::alloc::{AllocError, Global};

/// The scale of a trace's bars: the least start and the greatest end, in nanoseconds since
/// 1970-01-01T00:00:00Z, and the number of cells.
#[derive(Clone, Copy, Debug)]
pub(crate) struct Scale {
    pub cells: usize,
    pub from: u64,
    pub to: u64,
    ghost some: { 0 < cells },
    ghost few: { cells < 65536 },
    ghost ordered: { from ≤ to },
}

impl Scale {
    /// Returns the cell of a moment that is `after` nanoseconds after the least start.
    fn cell_at(self, after: u64) -> usize
        ensures { result ≡ spec.cell_at self.cells (self.to - self.from) after }
    {
        let length = self.to - self.from;
        if length == 0 {
            return 0;
        }
        let cell = after as u128 * self.cells as u128 / length as u128;
        cell.min(self.cells as u128 - 1) as usize
    }

    /// Returns the last cell of a span that ends `after` nanoseconds after the least start.
    fn end_cell(self, after: u64) -> usize
        requires { after ≤ self.to - self.from }
        ensures { result ≡ spec.end_cell self.cells (self.to - self.from) after }
    {
        let length = (self.to - self.from) as u128;
        if length == 0 {
            return 0;
        }
        let cells = (after as u128 * self.cells as u128 + (length - 1)) / length;
        cells.saturating_sub(1) as usize
    }

    /// Returns the nanoseconds from the least start to this moment, clamped to the bars' time.
    fn after_start(self, moment: u64) -> u64
        ensures value { result ≡ spec.after_start self.from self.to moment }
        ensures within { result ≤ self.to - self.from }
    {
        moment.max(self.from).min(self.to) - self.from
    }

    /// Returns the cell of this moment: the cell of an event, or the first cell of a span that
    /// starts then.
    pub(crate) fn cell_of(self, moment: u64) -> usize
        ensures { result ≡ spec.cell_of self.cells self.from self.to moment }
    {
        self.cell_at(self.after_start(moment))
    }

    /// Returns the last cell of a span with this start and this end.
    fn last_cell(self, start: u64, end: u64) -> usize
        ensures { result ≡ spec.last_cell self.cells self.from self.to start end }
    {
        self.end_cell(self.after_start(start.max(end)))
            .max(self.cell_of(start))
    }

    /// Returns the number of cells from the first to the last one of a span.
    pub(crate) fn filled(self, start: u64, end: u64) -> u128
        ensures { result ≡ spec.filled self.cells self.from self.to start end }
    {
        self.last_cell(start, end)
            .saturating_sub(self.cell_of(start)) as u128
            + 1
    }

    /// Returns whether an event at one of these moments marks this cell.
    fn is_marked(self, moments: &[u64], cell: usize) -> bool
        ensures { result ≡ spec.is_marked self.cells self.from self.to moments.now cell }
    {
        moments.iter().any(|moment| self.cell_of(*moment) == cell)
    }

    /// Returns the character in this cell.
    fn cell_char(self, is_ascii: bool, start: u64, end: u64, moments: &[u64], cell: usize) -> char
        ensures { result ≡ spec.cell_char is_ascii self.cells self.from self.to start end
            moments.now cell }
    {
        if self.is_marked(moments, cell) {
            return if is_ascii { '*' } else { '◆' };
        }
        if self.cell_of(start) <= cell && cell <= self.last_cell(start, end) {
            return if is_ascii { '=' } else { '█' };
        }
        ' '
    }

    /// Returns the characters of the bar of a span with this start, this end and events at these
    /// moments.
    ///
    /// # Errors
    ///
    /// Returns an error if out of memory.
    pub(crate) fn bar(
        self,
        alloc: Global,
        is_ascii: bool,
        start: u64,
        end: u64,
        moments: &[u64],
    ) -> Result<Vec<char>, AllocError>
        ensures { IfOk result (λ bar. bar.items
            ≡ spec.bar_text is_ascii self.cells self.from self.to start end moments.now) }
    {
        let mut bar = Vec::new(alloc);
        for cell in 0..self.cells {
            bar.push(self.cell_char(is_ascii, start, end, moments, cell))?;
        }
        Ok(bar)
    }
}
