// The sheet check: whether a table grades as its chart does, by a sheet of pairs of a state and a vector.
#![tactic(auto)]

ghost use Rattle.std.specs.Prelude.{◌≡◌};
ghost use Rattle.replies.specs.Replies.{verdict_said};
ghost use Rattle.paper.specs.Sheets.{sheet_reply};
ghost use Rattle.lines.specs.Held.{pairs_answer};

use card::inner::table_fits_chart;
use chart::open;
use index::IndexedSheet;
use lines::sheet::Sheet;
use lines::sheet_fits;
use marks::chains::Index;
use next_pairs::start_holds;
use replies::Refusal;
use sheet_lines::check_lines;

// Inner: the pairs of a sheet that fits. The lines are numbered once, so that a pair is sought among few of them.
fn check_pairs(sheet: Sheet) -> Result<(), Refusal>
    ensures { verdict_said result ≡ pairs_answer sheet.entry }
{
    let mut index = Index::new();
    let indexed = IndexedSheet::new(sheet, &mut index);
    if !start_holds(&indexed) {
        return Err(Refusal::Start);
    }
    check_lines(&indexed)
}

// Checks a sheet: whether the table's letters and grades are the chart's, the sheet fits, the start pair is on it, and every line holds.
pub fn check_sheet(
    chart: &[u8],
    rows: &[u8],
    count: usize,
    m: usize,
    sheet: &[u8],
    lines: usize,
) -> Result<(), Refusal>
    ensures { verdict_said result ≡ sheet_reply chart.now rows.now count m sheet.now lines }
{
    let chart = open(chart)?;
    if !table_fits_chart(&chart, rows, count, m) {
        return Err(Refusal::Table);
    }
    if !sheet_fits(&chart, count, sheet, lines) {
        return Err(Refusal::Sheet);
    }
    check_pairs(Sheet {
        chart: &chart,
        rows,
        bytes: sheet,
        lines,
    })
}
