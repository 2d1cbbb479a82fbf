// A sheet that fits. Its methods have a `requires`, so only proved code may call them.
ghost use Rattle.std.specs.Prelude.{◌≡◌, ◌<◌};
ghost use Rattle.paper.specs.Chart.{letters};
ghost use Rattle.paper.specs.Sheets.{line_at, line_state, line_vector};
ghost use Rattle.cells.specs.Shaped.{Part};
ghost use Rattle.rows.specs.RowIn.{RowIn};
ghost use Rattle.lines.specs.Readable.{Readable};

use crate::{line_bytes, line_state, line_vector};
use cells::Chart;

// A sheet of so many lines beside its chart and the table's rows.
#[derive(Clone, Copy)]
pub struct Sheet<'a> {
    pub chart: &'a Chart<'a>,
    pub rows: &'a [u8],
    pub bytes: &'a [u8],
    pub lines: usize,
    pub ghost readable: { Readable chart.now rows.now bytes.now lines },
}

impl<'a> Sheet<'a> {
    // The state of line i: the table has a row for it.
    pub fn state(&self, i: usize) -> usize
        requires { i < self.now.lines }
        ensures { (result ≡ line_state self.now.chart.now self.now.bytes.now i) × RowIn self.now.rows.now (letters self.now.chart.now) result }
    {
        line_state(self.chart, self.bytes, i)
    }

    // The bytes of line i.
    pub fn line(&self, i: usize) -> &[u8]
        requires { i < self.now.lines }
        ensures { result.now ≡ line_at self.now.chart.now self.now.bytes.now i }
    {
        line_bytes(self.chart, self.bytes, i)
    }

    // The vector of line i.
    pub fn vector(&self, i: usize) -> &[u8]
        requires { i < self.now.lines }
        ensures { Part self.now.chart.now (line_vector self.now.chart.now self.now.bytes.now i) result.now }
    {
        line_vector(self.chart, self.bytes, i)
    }
}
