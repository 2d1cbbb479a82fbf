// Printing a table with its cap.
#![tactic(auto)]

ghost use Rattle.std.specs.Prelude.{◌≡◌};
ghost use Rattle.replies.specs.Replies.{written_said};
ghost use Rattle.pages.specs.Texts.{Filled, table_text, print_table};
ghost use Rattle.printing.specs.Printing.{TableIn, TablePut};

use card::inner::{cap_of, table_fits_chart};
use cells::Chart;
use chart::open;
use frames::put_frame;
use replies::Refusal;
use row_lines::{put_rows, text_fits};

// The cap's line has so many bytes.
const CAP_LINE: usize = 9;

// A table beside its chart, to the front of a buffer: the count and m, one line a state, the cap.
fn put_table(chart: &Chart, rows: &[u8], count: usize, m: usize, text: &mut [u8]) -> usize
    requires { TableIn chart.now rows.now count m text.old }
    ensures { TablePut (table_text chart.now rows.now count m) text.old text.new result }
{
    let [.., high, low] = count.to_be_bytes();
    put_frame(0x11, &[high, low, m as u8], text);
    put_rows(rows, count, m, &mut text[13..]);
    let cap = cap_of(chart, rows, count, m);
    let at = 13 + count * (9 + 4 * m);
    put_frame(0x13, &[cap], &mut text[at..]);
    at + CAP_LINE
}

// A table beside its chart, with its cap.
pub fn print_table(
    chart: &[u8],
    rows: &[u8],
    count: usize,
    m: usize,
    text: &mut [u8],
) -> Result<usize, Refusal>
    ensures { ◌≡◌ {A = Filled} (record { reply = written_said result; buffer = text.new }) (print_table chart.now rows.now count m text.old) }
{
    let chart = open(chart)?;
    if !text_fits(count, m, text.len()) {
        return Err(Refusal::Room);
    }
    if !table_fits_chart(&chart, rows, count, m) {
        return Err(Refusal::Table);
    }
    Ok(put_table(&chart, rows, count, m, text))
}
