// Whether a key is that of a value: in the reduced table what each letter makes of the vector, and its grade; elsewhere the value itself.
#![tactic(auto)]

ghost use Rattle.std.specs.Prelude.{◌≡◌, ◌+◌, ◌*◌, ◌<◌, length};
ghost use Rattle.paper.specs.Chart.{k_of, n_of, letters};
ghost use Rattle.paper.specs.Lists.{same_list, all_below};
ghost use Rattle.paper.specs.Vectors.{row_times};
ghost use Rattle.paper.specs.Constructions.{reduced_key};
ghost use Rattle.cells.specs.Shaped.{Vector};
ghost use Rattle.kinds.specs.Kinds.{letter_same, made, key_size};
ghost use Rattle.kinds.specs.Ready.{Value};

use cells::Chart;
use kinds::keyed;
use kinds::plan::Plan;
use marks::same;
use vectors::times::{end_grade, row_times};

// Whether letter x makes `due` of the vector v. There is no heap: a vector has at most 24 grades.
pub fn makes(chart: &Chart, x: usize, v: &[u8], due: &[u8]) -> bool
    requires { (x < letters chart.now) × Vector chart.now v.now × (length due.now ≡ n_of chart.now) }
    ensures { result ≡ same_list (row_times chart.now x v.now) due.now }
{
    let n = chart.n();
    let mut made = [0u8; 24];
    row_times(chart, x, v, &mut made);
    same(&made[..n], due)
}

// Whether every letter makes of the vector v what the key says.
pub fn same_letters(chart: &Chart, v: &[u8], key: &[u8]) -> bool
    requires { Vector chart.now v.now × (length key.now ≡ letters chart.now * n_of chart.now + 1) }
    ensures { result ≡ all_below (letters chart.now) (letter_same chart.now v.now (n_of chart.now) key.now) }
{
    let n = chart.n();
    for x in 0..chart.letters() {
        let at = x * n;
        if !makes(chart, x, v, &key[at..at + n]) {
            return false;
        }
    }
    true
}

// Whether a key of the reduced table is that of the vector v: the grade first, which tells most.
pub fn same_key(chart: &Chart, v: &[u8], key: &[u8]) -> bool
    requires { Vector chart.now v.now × (length key.now ≡ letters chart.now * n_of chart.now + 1) }
    ensures { result ≡ same_list (reduced_key chart.now v.now) key.now }
{
    let last = chart.letters() * chart.n();
    end_grade(chart, v) == key[last] && same_letters(chart, v, key)
}

// Whether a key is that of the value v.
pub fn same_by(plan: &Plan, v: &[u8], key: &[u8]) -> bool
    requires { Value (k_of plan.now.chart.now) plan.now.width v.now × (length key.now ≡ key_size plan.now.kind plan.now.chart.now plan.now.width) }
    ensures { result ≡ same_list ((made plan.now).key v.now) key.now }
{
    if keyed(plan.kind) {
        same_key(plan.chart, v, key)
    } else {
        same(v, key)
    }
}
