// What the calls answer. `specs/Replies.antt` gives document 01's number and values for each case.
#![tactic(auto)]

ghost use Rattle.std.specs.Prelude.{◌≡◌};
ghost use Rattle.replies.specs.Replies.{said};

use std::fmt;

// Why a call is refused: document 01's refusals 1 to 14, in its order.
#[derive(Clone, Copy, Debug, PartialEq, Eq)]
pub enum Refusal {
    // 1: k, e, n or m is out of range
    Sizes,
    // 2: the chart's bytes are under four, or under the layout's length
    Short,
    // 3: a grade of the chart is k or more
    Grade,
    // 4: the first broken law, from 1, and its first grades
    Law {
        law: usize,
        a: usize,
        b: usize,
        c: usize,
    },
    // 5: a room is out of range, or a lent buffer to be written is too short
    Room,
    // 6: the distinct reverse vectors outnumber their room
    Reverse,
    // 7: the distinct states outnumber their room
    States,
    // 8: the first place in the word whose letter is m or more
    Letter {
        at: usize,
    },
    // 9: a table that is out of range, too short, or of another chart
    Table,
    // 10: a sheet that is out of range or too short
    Sheet,
    // 11: the pair of state 0 and the start vector is not on the sheet
    Start,
    // 12: the line whose table grade is not its vector combined with end
    Line {
        line: usize,
    },
    // 13: the line and the letter whose next pair is not on the sheet
    Next {
        line: usize,
        letter: usize,
    },
    // 14: the first line of a text, from 1, that is not the frame due there; 0 for a text that is too long
    Text {
        line: usize,
    },
}

// Sizes of a chart that is not refused, how many letters its words may use, and where its parts begin: worked out once.
#[derive(Clone, Copy, Debug, PartialEq, Eq)]
pub struct Shape {
    pub k: usize,
    pub e: usize,
    pub n: usize,
    pub m: usize,
    pub letters: usize,
    pub join: usize,
    pub prod: usize,
    pub start: usize,
    pub end: usize,
    pub matrix: usize,
    pub size: usize,
}

// The counts that the Brzozowski builder answers: of states, and of reverse vectors.
#[derive(Clone, Copy, Debug, PartialEq, Eq)]
pub struct Both {
    pub states: usize,
    pub reverse: usize,
}

// Document 01's number of a refusal.
impl From<Refusal> for u8 {
    ghost from_gives = { λ why number. number ≡ (said why).0 };

    fn from(why: Refusal) -> u8 {
        match why {
            Refusal::Sizes => 1,
            Refusal::Short => 2,
            Refusal::Grade => 3,
            Refusal::Law { .. } => 4,
            Refusal::Room => 5,
            Refusal::Reverse => 6,
            Refusal::States => 7,
            Refusal::Letter { .. } => 8,
            Refusal::Table => 9,
            Refusal::Sheet => 10,
            Refusal::Start => 11,
            Refusal::Line { .. } => 12,
            Refusal::Next { .. } => 13,
            Refusal::Text { .. } => 14,
        }
    }
}

// The number, and the values behind it.
impl fmt::Display for Refusal {
    fn fmt<W: fmt::Write>(&self, f: &mut fmt::Formatter<W>) -> fmt::Result {
        write!(f, "{}", u8::from(*self))?;
        match self {
            Refusal::Law { law, a, b, c } => write!(f, " {law} {a} {b} {c}"),
            Refusal::Letter { at } => write!(f, " {at}"),
            Refusal::Line { line } | Refusal::Text { line } => write!(f, " {line}"),
            Refusal::Next { line, letter } => write!(f, " {line} {letter}"),
            _ => Ok(()),
        }
    }
}
