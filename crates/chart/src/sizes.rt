// The first tests of a chart: its sizes, where its parts begin, and whether its bytes are grades.
ghost use Rattle.std.specs.Prelude.{◌≡◌, [], ◌∷◌, ◌≤◌, length};
ghost use Rattle.paper.specs.Chart.{k_of, chart_size};
ghost use Rattle.paper.specs.Check.{sizes_fit, grades_fit, shape_of};
ghost use Rattle.replies.specs.Replies.{shape_said};
ghost use Rattle.algebra.specs.Sizes.{Sizes};

use replies::Shape;

// Bytes before the tables: k, e, n, m.
pub(crate) const HEAD: usize = 4;

pub fn sizes_fit(k: usize, e: usize, n: usize, m: usize) -> bool
    ensures { result ≡ sizes_fit k e n m }
{
    (2..=16).contains(&k) && e < k && (1..=24).contains(&n) && (1..=16).contains(&m)
}

// The shape of every chart with this head.
pub(crate) fn laid_out(k: usize, e: usize, n: usize, m: usize) -> Shape
    requires { Sizes k e n m }
    ensures { shape_said result ≡ shape_of (k ∷ e ∷ n ∷ m ∷ []) }
{
    let prod = HEAD + k * k;
    let start = prod + k * k;
    let end = start + n;
    let matrix = end + n;
    Shape {
        k,
        e,
        n,
        m,
        letters: m,
        join: HEAD,
        prod,
        start,
        end,
        matrix,
        size: matrix + m * n * n,
    }
}

// Whether every byte behind the head is below k.
pub(crate) fn grades_fit(chart: &[u8], k: u8, size: usize) -> bool
    requires { (k ≡ k_of chart.now) × (size ≡ chart_size chart.now) × (size ≤ length chart.now) }
    ensures { result ≡ grades_fit chart.now }
{
    chart[HEAD..size].iter().all(|grade| *grade < k)
}
