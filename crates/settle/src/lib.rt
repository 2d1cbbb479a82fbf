// What a letter leads to, worked out in the first free place, and kept there if it is new.
#![tactic(auto)]

ghost use Rattle.std.specs.Prelude.{◌≡◌, ◌+◌, ◌*◌, ◌≤◌, ◌<◌, length, take, drop};
ghost use Rattle.paper.specs.Chart.{letters};
ghost use Rattle.paper.specs.Tables.{two_bytes};
ghost use Rattle.places.specs.Memory.{spliced};
ghost use Rattle.settle.specs.Settles.{Settles, Asks};

use kinds::plan::Plan;
use marks::chains::Index;
use moves::step_into;
use search::seek;

// The place of a candidate, and how many states are kept with it. There is a place in either case, so an Option would not say which.
#[derive(Clone, Copy, Debug, PartialEq, Eq)]
pub struct Settled {
    pub at: usize,
    pub held: usize,
}

// A copy of the w bytes from a place on. There is no heap: the longest value has 128.
pub fn copy_of(vectors: &[u8], from: usize, w: usize) -> [u8; 128]
    requires { (w ≤ 128) × (from + w ≤ length vectors.now) }
    ensures { take w result ≡ take w (drop from vectors.now) }
{
    let mut copy = [0; 128];
    copy[..w].copy_from_slice(&vectors[from..from + w]);
    copy
}

// A state number in two bytes, high first.
pub fn put_two(row: &mut [u8], at: usize, s: usize)
    requires { at + 2 ≤ length row.old }
    ensures { row.new ≡ spliced at (two_bytes s) row.old }
{
    let [.., high, low] = s.to_be_bytes();
    row[at..at + 2].copy_from_slice(&[high, low]);
}

// Works out what letter x leads to from v straight in the first free place, and keeps it there if its key is new.
pub fn settle(
    plan: &Plan,
    x: usize,
    v: &[u8],
    vectors: &mut [u8],
    index: &mut Index,
    held: usize,
) -> Settled
    requires { (x < letters plan.now.chart.now) × Asks plan.now held v.now vectors.old index.old }
    ensures { Settles plan.now x v.now vectors.old vectors.new index.new held result.at result.held }
{
    let from = held * plan.stride;
    step_into(plan, x, v, &mut vectors[from..]);
    let Some(at) = seek(plan, vectors, index, held) else {
        return Settled {
            at: held,
            held: held + 1,
        };
    };
    Settled { at, held }
}
