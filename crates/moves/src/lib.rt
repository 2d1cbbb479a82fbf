// The first value of each construction, a letter's step and the grade, by the kind of the plan (`kinds` says why by a match). Each has a `requires`, so only proved code may call them.
#![tactic(auto)]

ghost use Rattle.std.specs.Prelude.{◌≡◌, ◌+◌, ◌*◌, ◌≤◌, ◌<◌, length};
ghost use Rattle.paper.specs.Chart.{k_of, letters};
ghost use Rattle.paper.specs.Lists.{in_front};
ghost use Rattle.kinds.specs.Kinds.{grades_in, next_row, made, Ready};
ghost use Rattle.kinds.specs.Ready.{Value, Reverses};

use kinds::Kind;
use kinds::plan::Plan;
use rows::{grade_at, next_at};
use vectors::times::{end_grade, row_times, start_grade, times_col};

// The grade bytes of a table of `count` states, into the front of `out`.
pub fn put_table_grades(table: &[u8], letters: usize, count: usize, out: &mut [u8])
    requires { (count * (1 + 2 * letters) ≤ length table.now) × (letters ≤ 16) × (count ≤ length out.old) }
    ensures { out.new ≡ in_front (grades_in table.now letters count) out.old }
{
    for i in 0..count {
        out[i] = grade_at(table, letters, i);
    }
}

// The row after letter x: at i the old row at the reverse table's next state of i.
pub fn put_next_row(
    table: &[u8],
    letters: usize,
    count: usize,
    x: usize,
    row: &[u8],
    out: &mut [u8],
)
    requires { (x < letters) × (letters ≤ 16) × (count ≡ length row.now) × Reverses table.now letters 256 count × (count ≤ length out.old) }
    ensures { out.new ≡ in_front (next_row table.now letters count x row.now) out.old }
{
    for i in 0..count {
        let next = next_at(table, letters, i, x);
        out[i] = row[next];
    }
}

// A vector, into the front of `out`, place by place: a copy in one call would need `memmove` of whoever links the archive for C.
fn put(v: &[u8], out: &mut [u8])
    requires { length v.now ≤ length out.old }
    ensures { out.new ≡ in_front v.now out.old }
{
    for p in 0..v.len() {
        out[p] = v[p];
    }
}

// The first value, into the front of `out`.
pub fn put_first(plan: &Plan, out: &mut [u8])
    requires { Ready plan.now × (plan.now.width ≤ length out.old) }
    ensures { out.new ≡ in_front (made plan.now).first out.old }
{
    match plan.kind {
        Kind::Nerode | Kind::Reduced => put(plan.chart.start(), out),
        Kind::Reverse => put(plan.chart.end(), out),
        Kind::Rows => put_table_grades(plan.reverse, plan.chart.letters(), plan.width, out),
    }
}

// What letter x makes of the value v, into the front of `out`.
pub fn step_into(plan: &Plan, x: usize, v: &[u8], out: &mut [u8])
    requires { Ready plan.now × (x < letters plan.now.chart.now) × Value (k_of plan.now.chart.now) plan.now.width v.now × (plan.now.width ≤ length out.old) }
    ensures { out.new ≡ in_front ((made plan.now).step x v.now) out.old }
{
    match plan.kind {
        Kind::Nerode | Kind::Reduced => row_times(plan.chart, x, v, out),
        Kind::Reverse => times_col(plan.chart, x, v, out),
        Kind::Rows => put_next_row(plan.reverse, plan.chart.letters(), plan.width, x, v, out),
    }
}

// The grade of the state whose value is v.
pub fn grade_by(plan: &Plan, v: &[u8]) -> u8
    requires { Value (k_of plan.now.chart.now) plan.now.width v.now }
    ensures { result ≡ (made plan.now).grade v.now }
{
    match plan.kind {
        Kind::Nerode | Kind::Reduced => end_grade(plan.chart, v),
        Kind::Reverse => start_grade(plan.chart, v),
        Kind::Rows => v[0],
    }
}
