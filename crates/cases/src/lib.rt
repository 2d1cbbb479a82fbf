// Stored cases on standard input: numbers of eight bytes, high first, and parts, each behind its length. Answers go to standard output, a
// line each: document 01's number, then the values.
#![tactic(auto)]

ghost use Rattle.std.specs.Prelude.{◌≡◌, IfOk, length};
ghost use Rattle.std.specs.Counts.{IsPrefixLen};

use input::read_full;
use replies::Refusal;
use std::fmt::Display;
use std::io::{self, Read};

// Room for the largest table, 4,096 states of 16 letters, and some bytes more. Charts, sheets and words are shorter. Its
// length is all that is said, so that the zeros are not written out in proofs.
pub fn buffer() -> [u8; 140000]
    ensures { 140000 ≡ length result }
{
    [0; 140000]
}

// The next number, or 0 where the input has ended: stored cases are whole, and their answers are stored too.
pub fn number<R: Read>(input: &mut R) -> io::Result<usize> {
    let mut bytes = [0u8; 8];
    if read_full(input, &mut bytes)? < 8 {
        return Ok(0);
    }
    Ok(usize::from_be_bytes(bytes))
}

// Reads the next part into the front of a buffer, which must hold it, and answers how many bytes it has: 0 where it does not, as where the
// input has ended. No stored part is so long.
pub fn part<R: Read>(input: &mut R, buffer: &mut [u8]) -> io::Result<usize>
    ensures prefix_len { IfOk result (λ size. IsPrefixLen size buffer.new) }
    ensures kept_length { length buffer.new ≡ length buffer.old }
{
    let size = number(input)?;
    if buffer.len() < size {
        return Ok(0);
    }
    read_full(input, &mut buffer[..size])
}

// Answers each of the stored cases, whose number comes first.
pub fn answer_each<R: Read, F: FnMut(&mut R) -> io::Result<()>>(
    input: &mut R,
    mut answer_next: F,
) -> io::Result<()>
    requires { F.IsAlwaysCallable answer_next }
{
    for _ in 0..number(input)? {
        answer_next(input)?;
    }
    Ok(())
}

// A line for an answer that refuses nothing: the number 0, and its values.
pub fn print_values<T: Display>(rt: &impl Print, values: &[T]) -> io::Result<()> {
    print!(rt; "0")?;
    for value in values {
        print!(rt; " {value}")?;
    }
    println!(rt;)
}

// A line for an answer: that of its values, or the refusal's number and values.
pub fn print_answer<T: Display + Copy, const N: usize>(
    rt: &impl Print,
    answer: Result<[T; N], Refusal>,
) -> io::Result<()> {
    match answer {
        Ok(values) => print_values(rt, &values),
        Err(why) => println!(rt; "{why}"),
    }
}

// The line of a table check or a sheet check, which have no values.
pub fn print_verdict(rt: &impl Print, verdict: Result<(), Refusal>) -> io::Result<()> {
    print_answer(rt, verdict.map(|()| [0u8; 0]))
}
