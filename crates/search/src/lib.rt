// Where a candidate's key stands among the kept ones.
#![tactic(auto)]

ghost use Rattle.std.specs.Prelude.{◌≡◌, suc, ◌*◌, ◌≤◌, length};
ghost use Rattle.paper.specs.Chart.{k_of};
ghost use Rattle.paper.specs.Lists.{same_list};
ghost use Rattle.places.specs.Search.{place_at};
ghost use Rattle.marks.specs.Marks.{mark_of};
ghost use Rattle.kinds.specs.Kinds.{made, key_size};
ghost use Rattle.kinds.specs.Ready.{Value};
ghost use Rattle.search.specs.Kept.{Valued, Holds, FoundFor, Sought};

use key_bytes::put_key;
use keys::same_by;
use kinds::keyed;
use kinds::plan::Plan;
use marks::chains::Index;
use marks::mark;

// Whether the value in place s has this key. Bytes are compared only where the numbers agree.
pub fn has_key(
    plan: &Plan,
    vectors: &[u8],
    index: &Index,
    s: usize,
    number: u32,
    key: &[u8],
) -> bool
    requires { Valued plan.now vectors.now index.now.marks (suc s) × (s ≤ plan.now.room) × (number ≡ mark_of key.now) × (length key.now ≡ key_size plan.now.kind plan.now.chart.now plan.now.width) }
    ensures { result ≡ same_list ((made plan.now).key (place_at plan.now.stride plan.now.width vectors.now s)) key.now }
{
    if index.number_of(s) != number {
        return false;
    }
    let at = s * plan.stride;
    same_by(plan, &vectors[at..at + plan.width], key)
}

// Where, among the first `held` places, a value with this key first stands. A chain goes from the last place to the first, so it is walked to its end.
pub fn find(
    plan: &Plan,
    vectors: &[u8],
    index: &Index,
    held: usize,
    number: u32,
    key: &[u8],
) -> Option<usize>
    requires { Holds plan.now vectors.now index.now held × (held ≤ plan.now.room) × (number ≡ mark_of key.now) × (length key.now ≡ key_size plan.now.kind plan.now.chart.now plan.now.width) }
    ensures { FoundFor plan.now vectors.now held key.now result }
{
    let mut first = None;
    let mut next = index.last_with(number);
    while let Some(s) = next {
        if has_key(plan, vectors, index, s, number, key) {
            first = Some(s);
        }
        next = index.earlier(s);
    }
    first
}

// Looks for the key of the value in place `held` among the places before it. Where it is new, the place is indexed by its number.
pub fn look(
    plan: &Plan,
    vectors: &[u8],
    index: &mut Index,
    held: usize,
    key: &[u8],
) -> Option<usize>
    requires { Holds plan.now vectors.now index.old held × (held ≤ plan.now.room) × Value (k_of plan.now.chart.now) plan.now.width (place_at plan.now.stride plan.now.width vectors.now held) × (key.now ≡ (made plan.now).key (place_at plan.now.stride plan.now.width vectors.now held)) × (length key.now ≡ key_size plan.now.kind plan.now.chart.now plan.now.width) }
    ensures { Sought plan.now vectors.now index.new held result }
{
    let number = mark(key);
    let found = find(plan, vectors, index, held, number, key);
    if found.is_none() {
        index.chain(held, number);
    }
    found
}

// The same, where the key is worked out here, once. There is no heap: a key has at most 385 bytes.
pub fn seek(plan: &Plan, vectors: &[u8], index: &mut Index, held: usize) -> Option<usize>
    requires { Holds plan.now vectors.now index.old held × (held ≤ plan.now.room) × Value (k_of plan.now.chart.now) plan.now.width (place_at plan.now.stride plan.now.width vectors.now held) }
    ensures { Sought plan.now vectors.now index.new held result }
{
    let from = held * plan.stride;
    let v = &vectors[from..from + plan.width];
    if keyed(plan.kind) {
        let mut key = [0; 385];
        put_key(plan.chart, v, &mut key);
        let size = plan.chart.letters() * plan.chart.n() + 1;
        look(plan, vectors, index, held, &key[..size])
    } else {
        look(plan, vectors, index, held, v)
    }
}
