// The key of a vector in the reduced table, written out. It has a `requires`, so only proved code may call it.
#![tactic(auto)]

ghost use Rattle.std.specs.Prelude.{◌≡◌, ◌+◌, ◌*◌, ◌≤◌, length};
ghost use Rattle.paper.specs.Chart.{n_of, letters};
ghost use Rattle.paper.specs.Lists.{in_front};
ghost use Rattle.paper.specs.Constructions.{reduced_key};
ghost use Rattle.cells.specs.Shaped.{Vector};

use cells::Chart;
use vectors::times::{end_grade, row_times};

// The key of the vector v in the reduced table, into the front of `out`: what each letter makes of it, and its grade.
pub fn put_key(chart: &Chart, v: &[u8], out: &mut [u8])
    requires { Vector chart.now v.now × (letters chart.now * n_of chart.now + 1 ≤ length out.old) }
    ensures { out.new ≡ in_front (reduced_key chart.now v.now) out.old }
{
    let n = chart.n();
    let letters = chart.letters();
    for letter in 0..letters {
        row_times(chart, letter, v, &mut out[letter * n..]);
    }
    out[letters * n] = end_grade(chart, v);
}
