// Inner: the pairs that a line asks for, looked up on the sheet. Most have a `requires`, so only proved code may call them.
#![tactic(auto)]

ghost use Rattle.std.specs.Prelude.{◌≡◌, ◌+◌, ◌≤◌, ◌<◌, length};
ghost use Rattle.paper.specs.Lists.{in_front};
ghost use Rattle.paper.specs.Chart.{n_of, letters, start_vec};
ghost use Rattle.lines.specs.Held.{pair_held, grade_held, next_held, state_after, pair_after};
ghost use Rattle.lines.specs.Readable.{pair_of};

use cells::Chart;
use index::IndexedSheet;
use lines::sheet::Sheet;
use rows::{grade_at, next_at};
use vectors::times::{end_grade, row_times};

// Writes the start pair: state 0 and the chart's start vector.
pub fn put_start(chart: &Chart, out: &mut [u8])
    requires { 2 + n_of chart.now ≤ length out.old }
    ensures { out.new ≡ in_front (pair_of 0 (start_vec chart.now)) out.old }
{
    out[..2].fill(0);
    out[2..2 + chart.n()].copy_from_slice(chart.start());
}

// Writes line i's next pair by letter x: the table's next state, and the vector times the letter's matrix.
pub fn put_next(sheet: &Sheet, i: usize, x: usize, out: &mut [u8])
    requires { (i < sheet.now.lines) × (x < letters sheet.now.chart.now) × (2 + n_of sheet.now.chart.now ≤ length out.old) }
    ensures { (out.new ≡ in_front (pair_after sheet.now i x) out.old) × (state_after sheet.now i x < 65536) }
{
    let s = next_at(sheet.rows, sheet.chart.letters(), sheet.state(i), x);
    out[..2].copy_from_slice(&(s as u16).to_be_bytes());
    row_times(sheet.chart, x, sheet.vector(i), &mut out[2..]);
}

// The two below write a pair each into 26 bytes, the longest that a pair is: there is no heap. They differ in the pair.

// Whether the start pair is on the sheet.
pub fn start_holds(indexed: &IndexedSheet) -> bool
    ensures { result ≡ pair_held indexed.now.sheet 0 (start_vec indexed.now.sheet.chart.now) }
{
    let chart = indexed.sheet.chart;
    let size = 2 + chart.n();
    let mut first = [0; 26];
    put_start(chart, &mut first);
    indexed.holds(&first[..size])
}

// Whether line i's table grade is that of its vector.
pub fn grade_holds(sheet: &Sheet, i: usize) -> bool
    requires { i < sheet.now.lines }
    ensures { result ≡ grade_held sheet.now i }
{
    let grade = grade_at(sheet.rows, sheet.chart.letters(), sheet.state(i));
    grade == end_grade(sheet.chart, sheet.vector(i))
}

// Whether line i's next pair by letter x is on the sheet.
pub fn next_holds(indexed: &IndexedSheet, i: usize, x: usize) -> bool
    requires { (i < indexed.now.sheet.lines) × (x < letters indexed.now.sheet.chart.now) }
    ensures { result ≡ next_held indexed.now.sheet i x }
{
    let size = 2 + indexed.sheet.chart.n();
    let mut next = [0; 26];
    put_next(&indexed.sheet, i, x, &mut next);
    indexed.holds(&next[..size])
}
