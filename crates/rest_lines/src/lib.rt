// The lines of a chart's text behind its head.
#![tactic(auto)]

ghost use Rattle.rest_lines.specs.Reading.{RestIn, rest_lines, LinesSay};

use dues::{Counts, Cursor, behind, rule_of};
use frames::read_frame;
use replies::Refusal;

// The lines of kinds 02 to 06, to their places of the chart: how many bytes the chart has, or the first line that is not the frame due.
pub fn read_rest(text: &[u8], counts: Counts, chart: &mut [u8]) -> Result<usize, Refusal>
    requires { RestIn text.now counts chart.old }
    ensures { LinesSay (rest_lines text.now counts chart.old) chart.old chart.new result }
{
    let head = Cursor {
        kind: 1,
        left: 1,
        line: 1,
        pos: 0,
        at: 0,
    };
    let mut cursor = behind(head, rule_of(1, counts), counts);
    // A cursor says where reading stands, and a frame says how far it goes: no range is known beforehand.
    while 0 < cursor.left {
        let due = rule_of(cursor.kind, counts);
        if !read_frame(
            text,
            cursor.pos,
            cursor.kind,
            due.width,
            &mut chart[cursor.at..],
        ) {
            return Err(Refusal::Text { line: cursor.line });
        }
        cursor = behind(cursor, due, counts);
    }
    if cursor.pos < text.len() {
        return Err(Refusal::Text { line: cursor.line });
    }
    Ok(cursor.at)
}
