// The first law that is broken, and its first grades. Some have a `requires`, so only proved code may call them.
#![tactic(auto)]

ghost use Rattle.std.specs.Prelude.{◌≡◌, List, ℕ, ◌<◌};
ghost use Rattle.paper.specs.Chart.{k_of};
ghost use Rattle.paper.specs.Check.{law_at, law_at_two};
ghost use Rattle.laws.specs.Laws.{Enough, FirstBroken, first_one, first_two, first_three};

use cells::Chart;
use law_tests::law_at;
use replies::Refusal;

// A law goes by its number, which refusal 4 names. The two tables below say different things of the same laws, and each is one match.

// At how many values of c a law is tried with each a and b: all where it speaks of c, else one.
pub fn tries_c(law: usize, k: usize) -> usize
    requires { 0 < k }
    ensures { (ch : List ℕ) (a b : ℕ) → Enough k result (law_at ch law a b) }
{
    match law {
        2 | 4 | 7 => k,
        _ => 1,
    }
}

// At how many values of b a law is tried with each a: all where it speaks of b, else one.
pub fn tries_b(law: usize, k: usize) -> usize
    requires { 0 < k }
    ensures { (ch : List ℕ) (a : ℕ) → Enough k result (law_at_two ch law a) }
{
    match law {
        1 | 2 | 4 | 7 => k,
        _ => 1,
    }
}

// The first c with which the law is broken at a and b.
pub fn first_c(chart: &Chart, law: usize, a: u8, b: u8) -> Option<usize>
    requires { (a < k_of chart.now) × (b < k_of chart.now) }
    ensures { result ≡ first_one chart.now law a b }
{
    (0..tries_c(law, chart.k())).find(|c| !law_at(chart, law, a, b, *c as u8))
}

// The first b with which, for some c, the law is broken at a, and the first c.
pub fn first_b(chart: &Chart, law: usize, a: u8) -> Option<(usize, usize)>
    requires { a < k_of chart.now }
    ensures { result ≡ first_two chart.now law a }
{
    for b in 0..tries_b(law, chart.k()) {
        if let Some(c) = first_c(chart, law, a, b as u8) {
            return Some((b, c));
        }
    }
    None
}

// The first a with which, for some b and c, the law is broken, and the first b and c.
pub fn first_a(chart: &Chart, law: usize) -> Option<(usize, usize, usize)>
    ensures { result ≡ first_three chart.now law }
{
    for a in 0..chart.k() {
        if let Some((b, c)) = first_b(chart, law, a as u8) {
            return Some((a, b, c));
        }
    }
    None
}

// Whether all laws hold: else the first that is broken, with its first grades.
pub fn first_broken(chart: &Chart) -> Result<(), Refusal>
    ensures { FirstBroken chart.now result }
{
    for law in 0..8 {
        if let Some((a, b, c)) = first_a(chart, law) {
            return Err(Refusal::Law {
                law: law + 1,
                a,
                b,
                c,
            });
        }
    }
    Ok(())
}
