// The card of a shawl: the cap of a table beside its chart, the best grade that a row can earn.
#![tactic(auto)]

pub mod inner;

ghost use Rattle.std.specs.Prelude.{◌≡◌};
ghost use Rattle.replies.specs.Replies.{graded_said};
ghost use Rattle.paper.specs.Tables.{cap_reply};

use crate::inner::{cap_of, table_fits_chart};
use chart::open;
use replies::Refusal;

// The cap of a table.
pub fn cap(chart: &[u8], rows: &[u8], count: usize, m: usize) -> Result<u8, Refusal>
    ensures { graded_said result ≡ cap_reply chart.now rows.now count m }
{
    let chart = open(chart)?;
    if !table_fits_chart(&chart, rows, count, m) {
        return Err(Refusal::Table);
    }
    Ok(cap_of(&chart, rows, count, m))
}
