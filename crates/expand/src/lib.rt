// One state expanded: its row written, and what is new among its next states kept.
#![tactic(auto)]

ghost use Rattle.std.specs.Prelude.{◌+◌, ◌*◌, ◌≤◌, length};
ghost use Rattle.paper.specs.Chart.{letters};
ghost use Rattle.paper.specs.Lists.{in_front};
ghost use Rattle.paper.specs.Tables.{row_size};
ghost use Rattle.places.specs.Search.{place_at};
ghost use Rattle.places.specs.Memory.{spliced};
ghost use Rattle.nexts.specs.Taken.{row_in, TakenAs};
ghost use Rattle.expand.specs.Asked.{ExpandAsks};
ghost use Rattle.settle.specs.Settles.{Asks};

use kinds::plan::Plan;
use marks::chains::Index;
use moves::grade_by;
use nexts::nexts;
use settle::copy_of;

// Writes the row of the state whose value is v, and keeps what is new among its next states.
pub fn write_row(
    plan: &Plan,
    v: &[u8],
    held: usize,
    row: &mut [u8],
    vectors: &mut [u8],
    index: &mut Index,
) -> Option<usize>
    requires { Asks plan.now held v.now vectors.old index.old × (row_size (letters plan.now.chart.now) ≤ length row.old) }
    ensures { TakenAs plan.now held v.now (in_front (row_in plan.now held v.now vectors.old) row.old) row.new vectors.old vectors.new index.new result }
{
    row[0] = grade_by(plan, v);
    nexts(plan, v, held, &mut row[1..], vectors, index)
}

// Writes state i's row into its place, and keeps what is new among its next states. Its value is copied once, since places are written.
pub fn expand(
    plan: &Plan,
    i: usize,
    held: usize,
    table: &mut [u8],
    vectors: &mut [u8],
    index: &mut Index,
) -> Option<usize>
    requires { ExpandAsks plan.now i held table.old vectors.old index.old }
    ensures { TakenAs plan.now held (place_at plan.now.stride plan.now.width vectors.old i) (spliced (i * row_size (letters plan.now.chart.now)) (row_in plan.now held (place_at plan.now.stride plan.now.width vectors.old i) vectors.old) table.old) table.new vectors.old vectors.new index.new result }
{
    let w = plan.width;
    let copy = copy_of(vectors, i * plan.stride, w);
    let at = i * (1 + 2 * plan.chart.letters());
    write_row(plan, &copy[..w], held, &mut table[at..], vectors, index)
}
