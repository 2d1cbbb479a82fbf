// The Nerode call once more, for bodies that stand in for it whole (must-fail/): two of the wrong builders that document 01 names.
#![tactic(auto)]

ghost use Rattle.std.specs.Prelude.{◌≡◌};
ghost use Rattle.replies.specs.Replies.{built_said};
ghost use Rattle.paper.specs.Builders.{nerode};

use replies::Refusal;

// It has the contract and no proof of its own, so that another body is judged by the contract alone.
pub fn nerode_or_another(
    chart: &[u8],
    room: usize,
    table: &mut [u8],
    vectors: &mut [u8],
) -> Result<usize, Refusal>
    ensures { record { reply = built_said result; table = table.new; vectors = vectors.new } ≡ nerode chart.now room table.old vectors.old }
{
    forward::nerode(chart, room, table, vectors)
}
