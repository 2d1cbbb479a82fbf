// All letters of one state taken: what is new kept, and the next states written.
#![tactic(auto)]

ghost use Rattle.std.specs.Prelude.{◌*◌, ◌≤◌, length};
ghost use Rattle.paper.specs.Chart.{letters};
ghost use Rattle.paper.specs.Lists.{in_front};
ghost use Rattle.kinds.specs.Kinds.{made};
ghost use Rattle.search.specs.Kept.{kept_in};
ghost use Rattle.nexts.specs.Taken.{nexts_for, TakenAs};
ghost use Rattle.settle.specs.Settles.{Asks};

use kinds::plan::Plan;
use marks::chains::Index;
use settle::{put_two, settle};

// Takes all letters of the state whose value is v: keeps what is new, and writes the next states into `row`. Answers how many states are kept
// then, or None where they outnumber the room.
pub fn nexts(
    plan: &Plan,
    v: &[u8],
    first: usize,
    row: &mut [u8],
    vectors: &mut [u8],
    index: &mut Index,
) -> Option<usize>
    requires { Asks plan.now first v.now vectors.old index.old × (2 * (letters plan.now.chart.now) ≤ length row.old) }
    ensures { TakenAs plan.now first v.now (in_front (nexts_for (made plan.now) (letters plan.now.chart.now) (kept_in plan.now first vectors.old) v.now) row.old) row.new vectors.old vectors.new index.new result }
{
    let mut held = first;
    for x in 0..plan.chart.letters() {
        let settled = settle(plan, x, v, vectors, index, held);
        held = settled.held;
        if plan.room < held {
            return None;
        }
        put_two(row, 2 * x, settled.at);
    }
    Some(held)
}
