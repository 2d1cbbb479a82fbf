// Reads a chart on standard input and prints its Brzozowski table, or one refusal line.
#![tactic(auto)]

use answers::Program;
use std::io;

fn main(rt: HostRuntime) -> io::Result<()> {
    answers::print::run(&rt, &mut rt.stdin(), Program::Brz)
}
