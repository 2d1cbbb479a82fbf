// The Brzozowski table of a chart: the reverse table first, then the rows over it.
#![tactic(auto)]

ghost use Rattle.std.specs.Prelude.{◌≡◌, true, ◌≤◌};
ghost use Rattle.replies.specs.Replies.{both_said};
ghost use Rattle.paper.specs.Builders.{brzozowski, state_most, reverse_most, room_fits};
ghost use Rattle.row_build.specs.Lent.{lent};
ghost use Rattle.paper.specs.Check.{chart_fits};
ghost use Rattle.paper.specs.Lists.{both};

use cells::Chart;
use chart::open;
use replies::{Both, Refusal, Shape};
use rooms::room_fits;
use row_build::build_rows;

// Whether both rooms of the Brzozowski table are in range, and rows and places for them are lent.
pub fn rooms_fit(
    shape: Shape,
    room: usize,
    reverse: usize,
    table: usize,
    rows: usize,
    reverse_table: usize,
    reverse_vectors: usize,
) -> bool
    requires { (shape.letters ≤ 16) × (shape.n ≤ 24) }
    ensures { result ≡ both (room_fits state_most shape.letters reverse room table rows) (room_fits reverse_most shape.letters shape.n reverse reverse_table reverse_vectors) }
{
    room_fits(
        128,
        shape.letters,
        shape.n,
        reverse,
        reverse_table,
        reverse_vectors,
    ) && room_fits(4096, shape.letters, reverse, room, table, rows)
}

// The Brzozowski table of a checked chart, the rooms tested first.
pub fn build_both(
    chart: &Chart,
    room: usize,
    reverse: usize,
    table: &mut [u8],
    reverse_table: &mut [u8],
    reverse_vectors: &mut [u8],
    rows: &mut [u8],
) -> Result<Both, Refusal>
    requires { chart_fits chart.now ≡ true }
    ensures { record { reply = both_said result; left = lent table.new reverse_table.new reverse_vectors.new rows.new } ≡ brzozowski chart.now room reverse (lent table.old reverse_table.old reverse_vectors.old rows.old) }
{
    if !rooms_fit(
        chart.shape(),
        room,
        reverse,
        table.len(),
        rows.len(),
        reverse_table.len(),
        reverse_vectors.len(),
    ) {
        return Err(Refusal::Room);
    }
    build_rows(
        chart,
        room,
        reverse,
        table,
        reverse_table,
        reverse_vectors,
        rows,
    )
}

// The Brzozowski table, with the reverse table, the reverse vectors and the rows that it is made from.
pub fn brzozowski(
    chart: &[u8],
    room: usize,
    reverse_room: usize,
    table: &mut [u8],
    reverse_table: &mut [u8],
    reverse_vectors: &mut [u8],
    rows: &mut [u8],
) -> Result<Both, Refusal>
    ensures { record { reply = both_said result; left = lent table.new reverse_table.new reverse_vectors.new rows.new } ≡ brzozowski chart.now room reverse_room (lent table.old reverse_table.old reverse_vectors.old rows.old) }
{
    build_both(
        &open(chart)?,
        room,
        reverse_room,
        table,
        reverse_table,
        reverse_vectors,
        rows,
    )
}
