// What the three programs print, from a chart's text: a table's text, or one refusal line.
#![tactic(auto)]

pub mod print;

ghost use Rattle.std.specs.Prelude.{◌≡◌, ◌≤◌, length};
ghost use Rattle.replies.specs.Replies.{built_said};
ghost use Rattle.paper.specs.Builders.{blank_table};
ghost use Rattle.pages.specs.Programs.{program_room, program};
ghost use Rattle.std.specs.Counts.{IsPrefixLen};
ghost use Rattle.shown.specs.Answered.{Answered, answer_most};
ghost use Rattle.answers.specs.Answers.{makes};
ghost use Rattle.made.specs.Made.{Made};

use lists::blank;
use made::{build_brz, build_nerode, build_reduced};
use replies::Refusal;
use shown::{finish, refuse};

// The three programs.
#[derive(Clone, Copy, Debug, PartialEq, Eq)]
pub enum Program {
    Nerode,
    Reduced,
    Brz,
}

// Room for every chart.
const CHART_BYTES: usize = 9780;

// Rows for 128 states of 16 letters.
const TABLE_BYTES: usize = 4224;

// There are three programs, and each has its call.
fn build(which: Program, chart: &[u8], table: &mut [u8]) -> Result<usize, Refusal>
    requires { table.old ≡ blank_table program_room }
    ensures { Made (makes which chart.now) chart.now table.new (built_said result) }
{
    match which {
        Program::Nerode => build_nerode(chart, table),
        Program::Reduced => build_reduced(chart, table),
        Program::Brz => build_brz(chart, table),
    }
}

// What a program prints for a chart that was read.
fn answer_chart(which: Program, chart: &[u8], out: &mut [u8]) -> usize
    requires { answer_most ≤ length out.old }
    ensures { Answered (makes which chart.now) out.old out.new result }
{
    let mut table = blank::<TABLE_BYTES>();
    let built = build(which, chart, &mut table);
    finish(chart, &table, built, out)
}

// What it prints for an input. Answers how many bytes that is.
pub fn answer(which: Program, text: &[u8], out: &mut [u8]) -> usize
    requires { answer_most ≤ length out.old }
    ensures answered { Answered (program (makes which) text.now) out.old out.new result }
    ensures prefix_len { IsPrefixLen result out.new }
{
    // the whole buffer is the chart, with zeros behind it
    let mut chart = blank::<CHART_BYTES>();
    match reading::read_chart(text, &mut chart) {
        Ok(_) => answer_chart(which, &chart, out),
        Err(why) => refuse(why, out),
    }
}
