// Checks and walks the tables on standard input, stored as `cases` says, and prints a line for each answer: its number and values. A case is
// a table with its count and m, and how many walks there are; a walk is a state, a letter and a word. The table check's line comes
// first, then for each walk those of the step, of the state's grade, of the word's, of the word's read letter by letter, and of the
// vector behind the state in the same bytes, with m bytes for each.
#![tactic(auto)]

use bench::reader::read_word;
use cases::{print_answer, print_values, print_verdict};
use places::vector_at;
use std::io::{self, Read};
use steps::{grade, step};
use tables::{check_table, grade_word};

fn answer_walk<R: Read>(
    rt: &impl Print,
    input: &mut R,
    rows: &[u8],
    count: usize,
    m: usize,
) -> io::Result<()> {
    let state = cases::number(input)?;
    let letter = cases::number(input)?;
    let mut word = cases::buffer();
    let size = cases::part(input, &mut word)?;
    let word = &word[..size];
    print_answer(rt, step(rows, count, m, state, letter).map(|next| [next]))?;
    print_answer(rt, grade(rows, count, m, state).map(|grade| [grade]))?;
    print_answer(rt, grade_word(rows, count, m, word).map(|grade| [grade]))?;
    print_answer(rt, read_word(rows, count, m, word).map(|grade| [grade]))?;
    print_values(rt, vector_at(rows, m, count, state))
}

fn answer_walks<R: Read>(
    rt: &impl Print,
    input: &mut R,
    rows: &[u8],
    count: usize,
    m: usize,
) -> io::Result<()> {
    cases::answer_each(input, |input| answer_walk(rt, input, rows, count, m))
}

fn answer_next<R: Read>(rt: &impl Print, input: &mut R) -> io::Result<()> {
    let mut rows = cases::buffer();
    let size = cases::part(input, &mut rows)?;
    let count = cases::number(input)?;
    let m = cases::number(input)?;
    print_verdict(rt, check_table(&rows[..size], count, m))?;
    answer_walks(rt, input, &rows[..size], count, m)
}

fn main(rt: HostRuntime) -> io::Result<()> {
    cases::answer_each(&mut rt.stdin(), |input| answer_next(&rt, input))
}
