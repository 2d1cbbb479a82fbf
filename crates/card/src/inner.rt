// Inner: a table beside a chart that was opened. One has a `requires`, so only proved code may call it.
ghost use Rattle.std.specs.Prelude.{◌≡◌};
ghost use Rattle.paper.specs.Tables.{table_fits_chart, cap_of};
ghost use Rattle.card.specs.Capped.{Beside};

use cells::Chart;
use rows::{grade_at, table_fits};

// Whether the table's letters and grades are the chart's, and it can be walked.
pub fn table_fits_chart(chart: &Chart, rows: &[u8], count: usize, m: usize) -> bool
    ensures { result ≡ table_fits_chart chart.now rows.now count m }
{
    m == chart.letters() && table_fits(rows, count, m, chart.k() as u8)
}

// The join of the grades of all states.
pub fn cap_of(chart: &Chart, rows: &[u8], count: usize, m: usize) -> u8
    requires { Beside chart.now rows.now count m }
    ensures { result ≡ cap_of chart.now rows.now count m }
{
    let mut cap = 0;
    for s in 0..count {
        cap = chart.join(cap, grade_at(rows, m, s));
    }
    cap
}
