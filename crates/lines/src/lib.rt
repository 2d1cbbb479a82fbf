// Inner: reading a sheet's lines, and whether they fit. Some have a `requires`, so only proved code may call them.
#![tactic(auto)]

ghost use Rattle.std.specs.Prelude.{◌≡◌, ◌*◌, length, leb};
ghost use Rattle.paper.specs.Lists.{both};
ghost use Rattle.paper.specs.Sheets.{line_size, line_at, line_state, line_vector, line_fits, sheet_fits};
ghost use Rattle.lines.specs.Readable.{LineIn};

pub mod sheet;

use cells::Chart;

// The state of line i.
pub fn line_state(chart: &Chart, sheet: &[u8], i: usize) -> usize
    requires { LineIn chart.now sheet.now i }
    ensures { result ≡ line_state chart.now sheet.now i }
{
    let at = i * (2 + chart.n());
    usize::from(u16::from_be_bytes([sheet[at], sheet[at + 1]]))
}

// The bytes of line i, as the part of the sheet that holds them.
pub fn line_bytes<'a>(chart: &Chart, sheet: &'a [u8], i: usize) -> &'a [u8]
    requires { LineIn chart.now sheet.now i }
    ensures { result.now ≡ line_at chart.now sheet.now i }
{
    let size = 2 + chart.n();
    let from = i * size;
    &sheet[from..from + size]
}

// The vector of line i, as the part of the sheet that holds it.
pub fn line_vector<'a>(chart: &Chart, sheet: &'a [u8], i: usize) -> &'a [u8]
    requires { LineIn chart.now sheet.now i }
    ensures { result.now ≡ line_vector chart.now sheet.now i }
{
    let n = chart.n();
    let from = i * (2 + n) + 2;
    &sheet[from..from + n]
}

// Whether line i's state is below the count, and its vector one of grades.
pub fn line_fits(chart: &Chart, count: usize, sheet: &[u8], i: usize) -> bool
    requires { LineIn chart.now sheet.now i }
    ensures { result ≡ line_fits chart.now count sheet.now i }
{
    let k = chart.k();
    line_state(chart, sheet, i) < count
        && line_vector(chart, sheet, i)
            .iter()
            .all(|grade| usize::from(*grade) < k)
}

// Whether the bytes of so many lines are all there.
fn bytes_there(chart: &Chart, sheet: &[u8], lines: usize) -> bool
    ensures { result ≡ both (leb lines 4096) (leb (lines * line_size chart.now) (length sheet.now)) }
{
    lines <= 4096 && lines * (2 + chart.n()) <= sheet.len()
}

// Whether the sheet's bytes are all there, and every line fits.
pub fn sheet_fits(chart: &Chart, count: usize, sheet: &[u8], lines: usize) -> bool
    ensures { result ≡ sheet_fits chart.now count sheet.now lines }
{
    bytes_there(chart, sheet, lines) && (0..lines).all(|i| line_fits(chart, count, sheet, i))
}
