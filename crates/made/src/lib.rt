// The table that each program prints, built with the programs' rooms in memory of zeros.
#![tactic(auto)]

ghost use Rattle.std.specs.Prelude.{◌≡◌};
ghost use Rattle.replies.specs.Replies.{built_said};
ghost use Rattle.paper.specs.Builders.{blank_table};
ghost use Rattle.pages.specs.Programs.{program_room, nerode_makes, reduced_makes, brz_makes};
ghost use Rattle.made.specs.Made.{Made};

use lists::blank;
use replies::Refusal;

// The programs' rooms.
const ROOM: usize = 128;

const REVERSE_ROOM: usize = 64;

// Places for 128 states and one more, of 24 bytes each.
const VECTOR_BYTES: usize = 3096;

// Rows for 64 reverse vectors of 16 letters.
const REVERSE_TABLE_BYTES: usize = 2112;

// Places for 64 reverse vectors and one more, of 24 bytes each.
const REVERSE_VECTOR_BYTES: usize = 1560;

// Places for 128 states and one more, of 64 bytes each.
const ROW_BYTES: usize = 8256;

// The table of a chart that was read, into a table of zeros; and so the other two. Each is one call: one function over the builders would
// only name them once more.
pub fn build_nerode(chart: &[u8], table: &mut [u8]) -> Result<usize, Refusal>
    requires { table.old ≡ blank_table program_room }
    ensures { Made (nerode_makes chart.now) chart.now table.new (built_said result) }
{
    forward::nerode(chart, ROOM, table, &mut blank::<VECTOR_BYTES>())
}

pub fn build_reduced(chart: &[u8], table: &mut [u8]) -> Result<usize, Refusal>
    requires { table.old ≡ blank_table program_room }
    ensures { Made (reduced_makes chart.now) chart.now table.new (built_said result) }
{
    forward::reduced(chart, ROOM, table, &mut blank::<VECTOR_BYTES>())
}

pub fn build_brz(chart: &[u8], table: &mut [u8]) -> Result<usize, Refusal>
    requires { table.old ≡ blank_table program_room }
    ensures { Made (brz_makes chart.now) chart.now table.new (built_said result) }
{
    let both = backward::brzozowski(
        chart,
        ROOM,
        REVERSE_ROOM,
        table,
        &mut blank::<REVERSE_TABLE_BYTES>(),
        &mut blank::<REVERSE_VECTOR_BYTES>(),
        &mut blank::<ROW_BYTES>(),
    )?;
    Ok(both.states)
}
