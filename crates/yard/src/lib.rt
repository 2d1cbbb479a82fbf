// For measuring: the chart check, the row product, the builders and the sheet check as calls that a program in Rust can time, by way of `yard_c`. Nothing here is promised.
#![tactic(auto)]

ghost use Rattle.std.specs.Prelude.{◌≡◌, true, ◌<◌, ◌≤◌, length};
ghost use Rattle.paper.specs.Chart.{n_of, letters};
ghost use Rattle.cells.specs.Shaped.{Grades, Vector};

use cells::Chart;
use replies::Refusal;

// What C reads as a number: the refusal's, or 0.
fn number<T: Copy>(answer: Result<T, Refusal>) -> u8 {
    answer.err().map_or(0, u8::from)
}

pub fn yard_check(chart: &[u8]) -> u8 {
    number(chart::check(chart))
}

// Whether v has n grades below k at its front.
fn are_grades(v: &[u8], k: usize, n: usize) -> bool
    ensures { result ≡ true → Grades k n v.now }
{
    v.len() >= n && v[..n].iter().all(|grade| usize::from(*grade) < k)
}

// The same row product so many times over.
fn multiply(chart: &Chart, x: usize, v: &[u8], out: &mut [u8], turns: usize)
    requires { (x < letters chart.now) × Vector chart.now v.now × (n_of chart.now ≤ length out.old) }
{
    for _ in 0..turns {
        vectors::times::row_times(chart, x, v, out);
    }
}

// The vector v times letter x's matrix, into out, so many times over. Answers 0 where the chart, the letter or the vector is not one.
pub fn yard_row_times(chart: &[u8], x: usize, v: &[u8], out: &mut [u8], turns: usize) -> usize {
    let Ok(chart) = chart::open(chart) else {
        return 0;
    };
    let n = chart.n();
    if chart.letters() <= x || out.len() < n || !are_grades(v, chart.k(), n) {
        return 0;
    }
    multiply(&chart, x, v, out, turns);
    turns
}

// What C reads as a state count: 0 for a refusal.
pub fn yard_nerode(chart: &[u8], room: usize, table: &mut [u8], vectors: &mut [u8]) -> usize {
    forward::nerode(chart, room, table, vectors).unwrap_or(0)
}

pub fn yard_reduced(chart: &[u8], room: usize, table: &mut [u8], vectors: &mut [u8]) -> usize {
    forward::reduced(chart, room, table, vectors).unwrap_or(0)
}

pub fn yard_brzozowski(
    chart: &[u8],
    room: usize,
    reverse_room: usize,
    table: &mut [u8],
    reverse_table: &mut [u8],
    reverse_vectors: &mut [u8],
    rows: &mut [u8],
) -> usize {
    backward::brzozowski(
        chart,
        room,
        reverse_room,
        table,
        reverse_table,
        reverse_vectors,
        rows,
    )
    .map_or(0, |both| both.states)
}

pub fn yard_check_sheet(
    chart: &[u8],
    rows: &[u8],
    count: usize,
    m: usize,
    sheet: &[u8],
    lines: usize,
) -> u8 {
    number(sheets::check_sheet(chart, rows, count, m, sheet, lines))
}
