// The reverse table of a checked chart, then the rows over it.
#![tactic(auto)]

ghost use Rattle.std.specs.Prelude.{◌≡◌, true};
ghost use Rattle.replies.specs.Replies.{both_said};
ghost use Rattle.paper.specs.Builders.{brzozowski, backward_room};
ghost use Rattle.row_build.specs.Lent.{lent};
ghost use Rattle.paper.specs.Check.{chart_fits};
ghost use Rattle.paper.specs.Lists.{zeros};

use cells::Chart;
use kinds::Kind;
use kinds::plan::Plan;
use lists::zero;
use replies::{Both, Refusal};
use walk::grow;

// Zeros in all four buffers. Document 01's call lends them apart; in contracts they are one `Lent`.
pub fn zero_all(a: &mut [u8], b: &mut [u8], c: &mut [u8], d: &mut [u8])
    ensures { (a.new ≡ zeros a.old) × (b.new ≡ zeros b.old) × (c.new ≡ zeros c.old) × (d.new ≡ zeros d.old) }
{
    zero(a);
    zero(b);
    zero(c);
    zero(d);
}

// The Brzozowski table of a checked chart, where there is room for it: the reverse table first, then the rows over it.
pub fn build_rows(
    chart: &Chart,
    room: usize,
    reverse: usize,
    table: &mut [u8],
    reverse_table: &mut [u8],
    reverse_vectors: &mut [u8],
    rows: &mut [u8],
) -> Result<Both, Refusal>
    requires { (chart_fits chart.now ≡ true) × (backward_room chart.now room reverse (lent table.old reverse_table.old reverse_vectors.old rows.old) ≡ true) }
    ensures { record { reply = both_said result; left = lent table.new reverse_table.new reverse_vectors.new rows.new } ≡ brzozowski chart.now room reverse (lent table.old reverse_table.old reverse_vectors.old rows.old) }
{
    let n = chart.n();
    let back = Plan {
        kind: Kind::Reverse,
        chart,
        // No reverse table is read yet.
        reverse: &[],
        width: n,
        stride: n,
        room: reverse,
    };
    let Some(count) = grow(&back, reverse_table, reverse_vectors) else {
        zero_all(table, reverse_table, reverse_vectors, rows);
        return Err(Refusal::Reverse);
    };
    let plan = Plan {
        kind: Kind::Rows,
        chart,
        reverse: reverse_table,
        width: count,
        stride: reverse,
        room,
    };
    let Some(states) = grow(&plan, table, rows) else {
        zero_all(table, reverse_table, reverse_vectors, rows);
        return Err(Refusal::States);
    };
    Ok(Both {
        states,
        reverse: count,
    })
}
