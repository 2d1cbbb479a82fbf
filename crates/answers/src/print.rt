// What the three programs share: a chart's text in, what the program prints for it to standard output.
ghost use Rattle.std.specs.Prelude.{◌≡◌, ◌+◌, length};
ghost use Rattle.pages.specs.Texts.{text_most};

use crate::Program;
use input::read_full;
use lists::blank;
use std::io::{self, Read};

// For standard input. One byte more than the longest chart's text: longer input is refused from there.
const TEXT_BYTES: usize = 22494;

// Nothing else says how much is read, so its length is a clause.
fn text_buffer() -> [u8; TEXT_BYTES]
    ensures { text_most + 1 ≡ length result }
{
    blank::<TEXT_BYTES>()
}

// The longest text of a table with 128 states and 16 letters.
const ANSWER_BYTES: usize = 9366;

// Writes what a program prints for a chart's text to standard output.
pub fn write_answer(rt: &impl Print, which: Program, text: &[u8]) -> io::Result<()> {
    let mut out = blank::<ANSWER_BYTES>();
    let size = crate::answer(which, text, &mut out);
    rt.write_all(&out[..size])
}

// A whole program, on an input that is the chart's text.
pub fn run<R: Read>(rt: &impl Print, input: &mut R, which: Program) -> io::Result<()> {
    let mut text = text_buffer();
    let got = read_full(input, &mut text)?;
    write_answer(rt, which, &text[..got])
}
