// The frames due: what each kind asks for, and where reading stands behind a line.
#![tactic(auto)]

ghost use Rattle.std.specs.Prelude.{◌≡◌, ◌≤◌};
ghost use Rattle.dues.specs.Dues.{Few, Ruled, Stepping, behind_line};

// The sizes that decide how many lines a chart has, and how long they are.
#[derive(Clone, Copy, Debug, PartialEq, Eq)]
pub struct Counts {
    pub k: usize,
    pub n: usize,
    pub m: usize,
}

// What a kind of frame asks for: its payload's length, how many lines of it there are, and the kind due after them.
#[derive(Clone, Copy, Debug, PartialEq, Eq)]
pub struct Rule {
    pub width: usize,
    pub lines: usize,
    pub next: usize,
}

// Where reading stands: the kind due and how many lines of it are left; the line, from 1, and where it begins in the text; where its
// bytes go in the chart.
#[derive(Clone, Copy, Debug, PartialEq, Eq)]
pub struct Cursor {
    pub kind: usize,
    pub left: usize,
    pub line: usize,
    pub pos: usize,
    pub at: usize,
}

// The kind decides how long the payload is, how many lines there are, and which kind is due next. Behind 06 nothing is due. Document 01 names
// the form: a match on the kind's number, with ranges.
pub fn rule_of(kind: usize, counts: Counts) -> Rule
    requires { (1 ≤ kind) × (kind ≤ 7) × Few counts }
    ensures { Ruled counts kind result }
{
    let (width, lines) = match kind {
        1 => (4, 1),
        2..=3 => (counts.k, counts.k),
        4..=5 => (counts.n, 1),
        6 => (counts.n, counts.m * counts.n),
        _ => (counts.n, 0),
    };
    Rule {
        width,
        lines,
        next: kind + 1,
    }
}

// Where reading stands behind the line at a cursor: at the next line of its kind, or behind the last at the first of the next kind.
pub fn behind(cursor: Cursor, due: Rule, counts: Counts) -> Cursor
    requires { Stepping cursor due counts }
    ensures { result ≡ behind_line counts cursor }
{
    let next = Cursor {
        line: cursor.line + 1,
        pos: cursor.pos + (7 + 2 * due.width),
        at: cursor.at + due.width,
        ..cursor
    };
    if 1 < cursor.left {
        return Cursor {
            left: cursor.left - 1,
            ..next
        };
    }
    Cursor {
        kind: due.next,
        left: rule_of(due.next, counts).lines,
        ..next
    }
}
