// Products of vectors with a letter's matrix. Nothing is tested or divided here.
ghost use Rattle.std.specs.Prelude.{◌≡◌, ◌<◌, ◌≤◌, length};
ghost use Rattle.paper.specs.Lists.{in_front};
ghost use Rattle.paper.specs.Chart.{k_of, n_of, letters};
ghost use Rattle.paper.specs.Vectors.{combine, row_times, times_col, col_entry, end_grade, start_grade};
ghost use Rattle.cells.specs.Shaped.{Read, Vector};
ghost use Rattle.vectors.specs.Products.{Blank, RowJoined};

use cells::Chart;

// Two vectors combined: the join of their products, place by place.
pub fn combine(chart: &Chart, v: &[u8], w: &[u8]) -> u8
    requires { Vector chart.now v.now × Vector chart.now w.now }
    ensures { Read (combine chart.now v.now w.now) (k_of chart.now) result }
{
    let shape = chart.shape();
    let mut sum = 0;
    for p in 0..shape.n {
        sum = chart.join(sum, chart.prod(v[p], w[p]));
    }
    sum
}

// Joins into the first n places of `out` the products of grade a with row p of letter x's matrix.
pub(crate) fn join_row(chart: &Chart, x: usize, p: usize, a: u8, out: &mut [u8])
    requires { (x < letters chart.now) × (p < n_of chart.now) × (a < k_of chart.now) × Vector chart.now out.old }
    ensures { RowJoined chart.now x p a out.old out.new }
{
    for q in 0..chart.n() {
        let term = chart.prod(a, chart.entry(x, p, q));
        out[q] = chart.join(out[q], term);
    }
}

// The row vector v times letter x's matrix, into the first n places of `out`, which hold zeros.
pub(crate) fn join_rows(chart: &Chart, x: usize, v: &[u8], out: &mut [u8])
    requires { (x < letters chart.now) × Vector chart.now v.now × Blank (n_of chart.now) out.old }
    ensures { out.new ≡ in_front (row_times chart.now x v.now) out.old }
{
    let own = chart.copy();
    let shape = chart.shape();
    for p in 0..shape.n {
        join_row(&own, x, p, v[p], out);
    }
}

// The row vector v times letter x's matrix, straight into the first n places of `out`.
pub fn row_times(chart: &Chart, x: usize, v: &[u8], out: &mut [u8])
    requires { (x < letters chart.now) × Vector chart.now v.now × (n_of chart.now ≤ length out.old) }
    ensures { out.new ≡ in_front (row_times chart.now x v.now) out.old }
{
    out[..chart.n()].fill(0);
    join_rows(chart, x, v, out);
}

// The grade of the vector v: combined with the end vector.
pub fn end_grade(chart: &Chart, v: &[u8]) -> u8
    requires { Vector chart.now v.now }
    ensures { Read (end_grade chart.now v.now) (k_of chart.now) result }
{
    combine(chart, v, chart.end())
}

// The grade byte of the reverse vector f: the start vector combined with it. The sides are not exchanged.
pub fn start_grade(chart: &Chart, f: &[u8]) -> u8
    requires { Vector chart.now f.now }
    ensures { Read (start_grade chart.now f.now) (k_of chart.now) result }
{
    combine(chart, chart.start(), f)
}

// The entry at p of letter x's matrix times the column w.
pub(crate) fn col_entry(chart: &Chart, x: usize, w: &[u8], p: usize) -> u8
    requires { (x < letters chart.now) × Vector chart.now w.now × (p < n_of chart.now) }
    ensures { Read (col_entry chart.now x w.now p) (k_of chart.now) result }
{
    combine(chart, chart.row(x, p), w)
}

// Letter x's matrix times the column w, straight into the first n places of `out`.
pub fn times_col(chart: &Chart, x: usize, w: &[u8], out: &mut [u8])
    requires { (x < letters chart.now) × Vector chart.now w.now × (n_of chart.now ≤ length out.old) }
    ensures { out.new ≡ in_front (times_col chart.now x w.now) out.old }
{
    for p in 0..chart.n() {
        out[p] = col_entry(chart, x, w, p);
    }
}
