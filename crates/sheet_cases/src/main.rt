// Checks the sheets on standard input, stored as `cases` says, and prints a line for each: the answer's number and values. A case is a
// chart, a table with its count and m, and a sheet with its number of lines.
#![tactic(auto)]

use std::io::{self, Read};

fn answer_next<R: Read>(rt: &impl Print, input: &mut R) -> io::Result<()> {
    let mut chart = cases::buffer();
    let chart_size = cases::part(input, &mut chart)?;
    let mut rows = cases::buffer();
    let rows_size = cases::part(input, &mut rows)?;
    let count = cases::number(input)?;
    let m = cases::number(input)?;
    let mut sheet = cases::buffer();
    let sheet_size = cases::part(input, &mut sheet)?;
    let lines = cases::number(input)?;
    let verdict = sheets::check_sheet(
        &chart[..chart_size],
        &rows[..rows_size],
        count,
        m,
        &sheet[..sheet_size],
        lines,
    );
    cases::print_verdict(rt, verdict)
}

fn main(rt: HostRuntime) -> io::Result<()> {
    cases::answer_each(&mut rt.stdin(), |input| answer_next(&rt, input))
}
