// The chart check.
#![tactic(auto)]

ghost use Rattle.std.specs.Prelude.{◌≡◌};
ghost use Rattle.paper.specs.Check.{check_reply};
ghost use Rattle.replies.specs.Replies.{checked_said};
ghost use Rattle.chart.specs.Opened.{Opened};

pub mod sizes;

use crate::sizes::{HEAD, grades_fit, laid_out, sizes_fit};
use cells::Chart;
use laws::first_broken;
use replies::{Refusal, Shape};

// Whether any bytes are a chart: its shape, or why it is refused.
pub fn check(chart: &[u8]) -> Result<Shape, Refusal>
    ensures { checked_said result ≡ check_reply chart.now }
{
    let [k, e, n, m, ..] = chart else {
        return Err(Refusal::Short);
    };
    let (k, e) = (usize::from(*k), usize::from(*e));
    let (n, m) = (usize::from(*n), usize::from(*m));
    if !sizes_fit(k, e, n, m) {
        return Err(Refusal::Sizes);
    }
    let shape = laid_out(k, e, n, m);
    if chart.len() < shape.size {
        return Err(Refusal::Short);
    }
    if !grades_fit(chart, chart[0], shape.size) {
        return Err(Refusal::Grade);
    }
    first_broken(&Chart::new(chart, shape))?;
    Ok(shape)
}

// A chart that was checked, or why it is refused.
pub fn open(bytes: &[u8]) -> Result<Chart, Refusal>
    ensures { Opened bytes.now result }
{
    let shape = check(bytes)?;
    Ok(Chart::new(bytes, shape))
}
