// Prints what the three programs print for each text on standard input, stored as `cases` says.
#![tactic(auto)]

use answers::Program;
use answers::print::write_answer;
use std::io::{self, Read};

fn print_all(rt: &impl Print, text: &[u8]) -> io::Result<()> {
    write_answer(rt, Program::Nerode, text)?;
    write_answer(rt, Program::Reduced, text)?;
    write_answer(rt, Program::Brz, text)
}

fn answer_next<R: Read>(rt: &impl Print, input: &mut R) -> io::Result<()> {
    let mut text = cases::buffer();
    let size = cases::part(input, &mut text)?;
    print_all(rt, &text[..size])
}

fn main(rt: HostRuntime) -> io::Result<()> {
    cases::answer_each(&mut rt.stdin(), |input| answer_next(&rt, input))
}
