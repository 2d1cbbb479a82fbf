// Reading into lent memory.
#![tactic(auto)]

ghost use Rattle.std.specs.Prelude.{◌≡◌, IfOk, length};
ghost use Rattle.std.specs.Counts.{IsPrefixLen};

use std::io::{self, Read};

// Reads until the buffer is full or the input has ended, and answers how many bytes came to its front. A read that fails is answered, and leaves
// bytes that came before it.
pub fn read_full<R: Read>(input: &mut R, buffer: &mut [u8]) -> io::Result<usize>
    ensures prefix_len { IfOk result (λ size. IsPrefixLen size buffer.new) }
    ensures kept_length { length buffer.new ≡ length buffer.old }
{
    // std has no such call: its `read_exact` refuses an input that ends early, and does not say how many bytes came
    let mut done = 0;
    while done < buffer.len() {
        let got = input.read(&mut buffer[done..])?;
        if got == 0 {
            break;
        }
        done += got;
    }
    Ok(done)
}
