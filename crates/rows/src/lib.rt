// Inner: reading a table's rows, and the tests that the calls are made of. Some have a `requires`, so only proved code may call them.
#![tactic(auto)]

ghost use Rattle.std.specs.Prelude.{◌≡◌, ◌+◌, ◌*◌, ◌<◌};
ghost use Rattle.paper.specs.Tables.{grade_at, next_at, size_fits, row_fits, table_fits};
ghost use Rattle.rows.specs.RowIn.{RowIn};

// `rows`, `count` and `m` stay three parameters: document 01's calls take them apart, with any values, so a struct of the three would be made in
// each call and would know nothing of them. What is known of a row is `RowIn`.

// The highest grade a table alone may have is one less.
pub const GRADE_TOP: u8 = 16;

pub fn size_fits(rows: &[u8], count: usize, m: usize) -> bool
    ensures { result ≡ size_fits rows.now count m }
{
    (1..=4096).contains(&count) && (1..=16).contains(&m) && count * (1 + 2 * m) <= rows.len()
}

pub fn grade_at(rows: &[u8], m: usize, s: usize) -> u8
    requires { RowIn rows.now m s }
    ensures { result ≡ grade_at rows.now m s }
{
    rows[s * (1 + 2 * m)]
}

pub fn next_at(rows: &[u8], m: usize, s: usize, x: usize) -> usize
    requires { RowIn rows.now m s × (x < m) }
    ensures { (result ≡ next_at rows.now m s x) × (result < 65536) }
{
    let at = s * (1 + 2 * m) + (1 + 2 * x);
    usize::from(u16::from_be_bytes([rows[at], rows[at + 1]]))
}

pub fn row_fits(rows: &[u8], count: usize, m: usize, top: u8, s: usize) -> bool
    requires { RowIn rows.now m s }
    ensures { result ≡ row_fits rows.now count m top s }
{
    if top <= grade_at(rows, m, s) {
        return false;
    }
    // A loop: with `all` here a step from C takes a tenth to a fifth longer.
    for x in 0..m {
        if count <= next_at(rows, m, s, x) {
            return false;
        }
    }
    true
}

// Whether every state can be walked from, its grade being below `top`.
pub fn table_fits(rows: &[u8], count: usize, m: usize, top: u8) -> bool
    ensures { result ≡ table_fits rows.now count m top }
{
    size_fits(rows, count, m) && (0..count).all(|s| row_fits(rows, count, m, top, s))
}
