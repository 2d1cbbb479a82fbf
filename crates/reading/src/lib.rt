// Reading a chart's text.
#![tactic(auto)]

ghost use Rattle.std.specs.Prelude.{◌≡◌, ◌≤◌, length};
ghost use Rattle.replies.specs.Replies.{written_said};
ghost use Rattle.pages.specs.Texts.{Filled, chart_most, lines_of_text, lines_read, read_chart};
ghost use Rattle.rest_lines.specs.Reading.{LinesSay};
ghost use Rattle.reading.specs.Zeroed.{zeroed_by};

use chart::check;
use chart::sizes::sizes_fit;
use dues::{Counts, rule_of};
use frames::read_frame;
use replies::Refusal;
use rest_lines::read_rest;

// A text has at most so many bytes, and so has a chart.
const TEXT_MOST: usize = 22493;

const CHART_MOST: usize = 9780;

// All lines of a chart, to their places of the buffer.
fn read_lines(text: &[u8], chart: &mut [u8]) -> Result<usize, Refusal>
    requires { chart_most ≤ length chart.old }
    ensures { LinesSay (lines_of_text text.now) chart.old chart.new result }
{
    if TEXT_MOST < text.len() {
        return Err(Refusal::Text { line: 0 });
    }
    // the head's rule does not go by the sizes, which it brings
    let head = rule_of(1, Counts { k: 0, n: 0, m: 0 });
    if !read_frame(text, 0, 1, head.width, chart) {
        return Err(Refusal::Text { line: 1 });
    }
    let k = usize::from(chart[0]);
    let e = usize::from(chart[1]);
    let n = usize::from(chart[2]);
    let m = usize::from(chart[3]);
    if !sizes_fit(k, e, n, m) {
        return Err(Refusal::Sizes);
    }
    read_rest(text, Counts { k, n, m }, chart)
}

// A chart that was read is checked last. Where it is refused, the buffer is not zeroed yet.
fn read_whole(text: &[u8], chart: &mut [u8]) -> Result<usize, Refusal>
    requires { chart_most ≤ length chart.old }
    ensures { ◌≡◌ {A = Filled} (record { reply = written_said result; buffer = zeroed_by result chart.new }) (lines_read (lines_of_text text.now) chart.old) }
{
    let size = read_lines(text, chart)?;
    let shape = check(&chart[..size])?;
    Ok(shape.size)
}

// A chart's text, to the bytes of the chart. Every refusal but that of a short buffer zeroes the buffer.
pub fn read_chart(text: &[u8], chart: &mut [u8]) -> Result<usize, Refusal>
    ensures { ◌≡◌ {A = Filled} (record { reply = written_said result; buffer = chart.new }) (read_chart text.now chart.old) }
{
    if chart.len() < CHART_MOST {
        return Err(Refusal::Room);
    }
    let read = read_whole(text, chart);
    if read.is_err() {
        chart.fill(0);
    }
    read
}
