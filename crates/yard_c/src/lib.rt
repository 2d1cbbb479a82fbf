// The calls for measuring as a static library. `yard` has them.
#![tactic(auto)]

// The number of the refusal, or 0.
#[unsafe(no_mangle)]
pub extern "C" fn yard_check(chart: &[u8]) -> u8 {
    yard::yard_check(chart)
}

// The vector v times letter x's matrix, into out, so many times over. Answers 0 where the chart, the letter or the vector is not one.
#[unsafe(no_mangle)]
pub extern "C" fn yard_row_times(
    chart: &[u8],
    x: usize,
    v: &[u8],
    out: &mut [u8],
    turns: usize,
) -> usize {
    yard::yard_row_times(chart, x, v, out, turns)
}

#[unsafe(no_mangle)]
pub extern "C" fn yard_nerode(
    chart: &[u8],
    room: usize,
    table: &mut [u8],
    vectors: &mut [u8],
) -> usize {
    yard::yard_nerode(chart, room, table, vectors)
}

#[unsafe(no_mangle)]
pub extern "C" fn yard_reduced(
    chart: &[u8],
    room: usize,
    table: &mut [u8],
    vectors: &mut [u8],
) -> usize {
    yard::yard_reduced(chart, room, table, vectors)
}

#[unsafe(no_mangle)]
pub extern "C" fn yard_brzozowski(
    chart: &[u8],
    room: usize,
    reverse_room: usize,
    table: &mut [u8],
    reverse_table: &mut [u8],
    reverse_vectors: &mut [u8],
    rows: &mut [u8],
) -> usize {
    yard::yard_brzozowski(
        chart,
        room,
        reverse_room,
        table,
        reverse_table,
        reverse_vectors,
        rows,
    )
}

// The number of the refusal, or 0.
#[unsafe(no_mangle)]
pub extern "C" fn yard_check_sheet(
    chart: &[u8],
    rows: &[u8],
    count: usize,
    m: usize,
    sheet: &[u8],
    lines: usize,
) -> u8 {
    yard::yard_check_sheet(chart, rows, count, m, sheet, lines)
}
