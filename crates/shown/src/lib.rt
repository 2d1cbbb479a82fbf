// A table's text or a refusal's line, into the buffer that a program writes out.
#![tactic(auto)]

ghost use Rattle.std.specs.Prelude.{◌≤◌, length};
ghost use Rattle.replies.specs.Replies.{said, built_said};
ghost use Rattle.paper.specs.Chart.{letters};
ghost use Rattle.pages.specs.Texts.{refusal_text, table_text};
ghost use Rattle.pages.specs.Programs.{built_text};
ghost use Rattle.shown.specs.Answered.{Answered, answer_most};
ghost use Rattle.shown.specs.Shown.{Shown, Sound};

use replies::Refusal;

// One line with a refusal's number.
pub fn refuse(why: Refusal, out: &mut [u8]) -> usize
    requires { answer_most ≤ length out.old }
    ensures { Answered (refusal_text (said why).0) out.old out.new result }
{
    refusals::print_refusal(u8::from(why), out).unwrap()
}

// The table's text. A chart that a table was built of is not refused.
pub fn show(chart: &[u8], table: &[u8], count: usize, out: &mut [u8]) -> usize
    requires { Shown chart.now table.now count × (answer_most ≤ length out.old) }
    ensures { Answered (table_text chart.now table.now count (letters chart.now)) out.old out.new result }
{
    let shape = chart::check(chart).unwrap();
    printing::print_table(chart, table, count, shape.letters, out).unwrap()
}

// From what a builder answered and left in the table.
pub fn finish(chart: &[u8], table: &[u8], built: Result<usize, Refusal>, out: &mut [u8]) -> usize
    requires { Sound chart.now table.now (built_said built) × (answer_most ≤ length out.old) }
    ensures { Answered (built_text chart.now (built_said built) table.now) out.old out.new result }
{
    match built {
        Ok(count) => show(chart, table, count, out),
        Err(why) => refuse(why, out),
    }
}
