// The lines of a table's rows, and whether a table's text fits.
#![tactic(auto)]

ghost use Rattle.std.specs.Prelude.{◌≡◌, leb};
ghost use Rattle.paper.specs.Lists.{joined, in_front};
ghost use Rattle.pages.specs.Texts.{row_line, table_text_size};
ghost use Rattle.row_lines.specs.RowsIn.{RowsIn};

use frames::put_frame;

// Whether a table's text fits: its first line has 13 bytes, its last 9, each other 9 + 4 m. The count and m may be any numbers, so
// the room is divided among the lines, and no product is made that could be past the largest number.
pub fn text_fits(count: usize, m: usize, room: usize) -> bool
    ensures { result ≡ leb (table_text_size count m) room }
{
    if room < 22 {
        return false;
    }
    if count == 0 {
        return true;
    }
    let line = (room - 22) / count;
    if line < 9 {
        return false;
    }
    m <= (line - 9) / 4
}

// One line a state, to the front of a buffer.
pub fn put_rows(rows: &[u8], count: usize, m: usize, text: &mut [u8])
    requires { RowsIn rows.now count m text.old }
    ensures { text.new ≡ in_front (joined count (row_line rows.now m)) text.old }
{
    let width = 1 + 2 * m;
    let line = 7 + 2 * width;
    for s in 0..count {
        let from = s * width;
        put_frame(0x12, &rows[from..from + width], &mut text[s * line..]);
    }
}
