// The Nerode and the reduced Nerode table of a chart: the calls whose states are vectors.
#![tactic(auto)]

ghost use Rattle.std.specs.Prelude.{◌≡◌};
ghost use Rattle.replies.specs.Replies.{built_said};
ghost use Rattle.paper.specs.Builders.{nerode, reduced};

use chart::open;
use kinds::Kind;
use replies::Refusal;
use vector_build::build;

// Document 01 has two calls. Each names its kind to the one builder.

// The Nerode table. `room` is the most states that it may have.
pub fn nerode(
    chart: &[u8],
    room: usize,
    table: &mut [u8],
    vectors: &mut [u8],
) -> Result<usize, Refusal>
    ensures { record { reply = built_said result; table = table.new; vectors = vectors.new } ≡ nerode chart.now room table.old vectors.old }
{
    build(Kind::Nerode, &open(chart)?, room, table, vectors)
}

// The reduced Nerode table.
pub fn reduced(
    chart: &[u8],
    room: usize,
    table: &mut [u8],
    vectors: &mut [u8],
) -> Result<usize, Refusal>
    ensures { record { reply = built_said result; table = table.new; vectors = vectors.new } ≡ reduced chart.now room table.old vectors.old }
{
    build(Kind::Reduced, &open(chart)?, room, table, vectors)
}
