// Checks the charts on standard input, stored as `cases` says, and prints a line for each: the answer's number and values.
#![tactic(auto)]

use replies::Shape;
use std::io::{self, Read};

fn values(s: Shape) -> [usize; 11] {
    [
        s.k, s.e, s.n, s.m, s.letters, s.join, s.prod, s.start, s.end, s.matrix, s.size,
    ]
}

fn answer_next<R: Read>(rt: &impl Print, input: &mut R) -> io::Result<()> {
    let mut chart = cases::buffer();
    let size = cases::part(input, &mut chart)?;
    cases::print_answer(rt, chart::check(&chart[..size]).map(values))
}

fn main(rt: HostRuntime) -> io::Result<()> {
    cases::answer_each(&mut rt.stdin(), |input| answer_next(&rt, input))
}
