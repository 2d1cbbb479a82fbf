// Whether one law holds of some grades. Each has a `requires`, so only proved code may call them.
#![tactic(auto)]

ghost use Rattle.std.specs.Prelude.{◌≡◌, ◌<◌};
ghost use Rattle.paper.specs.Chart.{k_of};
ghost use Rattle.paper.specs.Check.{law_at};

use cells::Chart;

// Law 6 of the paper: the unit on either side of a gives a.
pub fn keeps_unit(chart: &Chart, a: u8) -> bool
    requires { (a < k_of chart.now) }
    ensures { result ≡ law_at chart.now 5 a 0 0 }
{
    let shape = chart.shape();
    let e = shape.e as u8;
    chart.prod(e, a) == a && chart.prod(a, e) == a
}

// Law 7 of the paper: 0 on either side of a gives 0.
pub fn keeps_zero(chart: &Chart, a: u8) -> bool
    requires { (a < k_of chart.now) }
    ensures { result ≡ law_at chart.now 6 a 0 0 }
{
    chart.prod(0, a) == 0 && chart.prod(a, 0) == 0
}

// Law 8 of the paper: a on either side of a join multiplies each of its two grades.
pub fn distributes(chart: &Chart, a: u8, b: u8, c: u8) -> bool
    requires { (a < k_of chart.now) × (b < k_of chart.now) × (c < k_of chart.now) }
    ensures { result ≡ law_at chart.now 7 a b c }
{
    let bc = chart.join(b, c);
    let left = chart.join(chart.prod(a, b), chart.prod(a, c));
    let right = chart.join(chart.prod(b, a), chart.prod(c, a));
    chart.prod(a, bc) == left && chart.prod(bc, a) == right
}

// A law at three grades. Laws go by their numbers, which refusal 4 names: an enum of laws would be turned into them.
pub fn law_at(chart: &Chart, law: usize, a: u8, b: u8, c: u8) -> bool
    requires { (a < k_of chart.now) × (b < k_of chart.now) × (c < k_of chart.now) }
    ensures { result ≡ law_at chart.now law a b c }
{
    match law {
        0 => chart.join(a, a) == a,
        1 => chart.join(a, b) == chart.join(b, a),
        2 => chart.join(chart.join(a, b), c) == chart.join(a, chart.join(b, c)),
        3 => chart.join(0, a) == a,
        4 => chart.prod(chart.prod(a, b), c) == chart.prod(a, chart.prod(b, c)),
        5 => keeps_unit(chart, a),
        6 => keeps_zero(chart, a),
        7 => distributes(chart, a, b, c),
        _ => true,
    }
}
