// The table of a checked chart whose states are vectors.
#![tactic(auto)]

ghost use Rattle.std.specs.Prelude.{◌≡◌, true};
ghost use Rattle.replies.specs.Replies.{built_said};
ghost use Rattle.paper.specs.Builders.{forward};
ghost use Rattle.paper.specs.Check.{chart_fits};
ghost use Rattle.kinds.specs.Kinds.{vectors_by};
ghost use Rattle.kinds.specs.Ready.{of_vectors};

use cells::Chart;
use kinds::Kind;
use kinds::plan::Plan;
use replies::Refusal;
use rooms::room_fits;
use walk::grow;

// The table of a checked chart whose states are vectors, where there is room for it.
pub fn build(
    kind: Kind,
    chart: &Chart,
    room: usize,
    table: &mut [u8],
    vectors: &mut [u8],
) -> Result<usize, Refusal>
    requires { (of_vectors kind ≡ true) × (chart_fits chart.now ≡ true) }
    ensures { record { reply = built_said result; table = table.new; vectors = vectors.new } ≡ forward chart.now (vectors_by kind chart.now) room table.old vectors.old }
{
    let n = chart.n();
    if !room_fits(4096, chart.letters(), n, room, table.len(), vectors.len()) {
        return Err(Refusal::Room);
    }
    let plan = Plan {
        kind,
        chart,
        // No reverse table is read.
        reverse: &[],
        width: n,
        stride: n,
        room,
    };
    let Some(count) = grow(&plan, table, vectors) else {
        table.fill(0);
        vectors.fill(0);
        return Err(Refusal::States);
    };
    Ok(count)
}
