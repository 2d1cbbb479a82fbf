// Inner: a sheet with an index of its lines, and looking a pair up in it. Each has a `requires`, so only proved code may call it.
#![tactic(auto)]

ghost use Rattle.std.specs.Prelude.{◌≡◌, ◌+◌, ◌<◌, length, get_or};
ghost use Rattle.paper.specs.Lists.{same_list};
ghost use Rattle.paper.specs.Chart.{n_of};
ghost use Rattle.paper.specs.Sheets.{line_at, on_sheet};
ghost use Rattle.marks.specs.Marks.{mark_of};
ghost use Rattle.marks.specs.Chains.{Chained};
ghost use Rattle.lines.specs.Held.{pair_held};
ghost use Rattle.lines.specs.Readable.{LineIn, LinesIn, Indexed, pair_state, pair_vector};

use cells::Chart;
use lines::line_bytes;
use lines::sheet::Sheet;
use marks::chains::Index;
use marks::{mark, same};

// Fills an empty index with the lines' numbers.
pub fn index_lines(chart: &Chart, sheet: &[u8], lines: usize, index: &mut Index)
    requires { LinesIn chart.now sheet.now lines × Chained index.old 0 }
    ensures { Indexed chart.now sheet.now lines index.new }
{
    for i in 0..lines {
        index.chain(i, mark(line_bytes(chart, sheet, i)));
    }
}

// Whether line i holds this pair's bytes. They are compared only where the numbers agree.
pub fn is_pair(
    chart: &Chart,
    sheet: &[u8],
    index: &Index,
    i: usize,
    number: u32,
    pair: &[u8],
) -> bool
    requires { LineIn chart.now sheet.now i × (i < 4097) × (get_or index.now.marks i 0 ≡ mark_of (line_at chart.now sheet.now i)) × (number ≡ mark_of pair.now) }
    ensures { result ≡ same_list (line_at chart.now sheet.now i) pair.now }
{
    index.number_of(i) == number && same(line_bytes(chart, sheet, i), pair)
}

// Whether some line is this pair: the lines whose numbers share a bucket with the pair's are looked at, the last one first.
pub fn on_sheet(chart: &Chart, sheet: &[u8], lines: usize, index: &Index, pair: &[u8]) -> bool
    requires { Indexed chart.now sheet.now lines index.now × (length pair.now ≡ 2 + n_of chart.now) }
    ensures { result ≡ on_sheet chart.now sheet.now lines (pair_state pair.now) (pair_vector pair.now) }
{
    let number = mark(pair);
    let mut next = index.last_with(number);
    while let Some(i) = next {
        if is_pair(chart, sheet, index, i, number, pair) {
            return true;
        }
        next = index.earlier(i);
    }
    false
}

// A sheet that fits, with an index of its lines' numbers. The index is lent: it is 26 KB, and is not moved.
#[derive(Clone, Copy)]
pub struct IndexedSheet<'a> {
    pub sheet: Sheet<'a>,
    pub index: &'a Index,
    pub ghost indexed: { Indexed sheet.chart.now sheet.bytes.now sheet.lines index.now },
}

impl<'a> IndexedSheet<'a> {
    // Fills an empty index with the sheet's lines, and lends it with the sheet.
    pub fn new(sheet: Sheet<'a>, index: &'a mut Index) -> Self
        requires { Chained index.old 0 }
        ensures { result.sheet ≡ sheet.entry }
    {
        index_lines(sheet.chart, sheet.bytes, sheet.lines, index);
        IndexedSheet { sheet, index }
    }

    // Whether some line is this pair.
    pub fn holds(&self, pair: &[u8]) -> bool
        requires { length pair.now ≡ 2 + n_of self.now.sheet.chart.now }
        ensures { result ≡ pair_held self.now.sheet (pair_state pair.now) (pair_vector pair.now) }
    {
        on_sheet(
            self.sheet.chart,
            self.sheet.bytes,
            self.sheet.lines,
            self.index,
            pair,
        )
    }
}
