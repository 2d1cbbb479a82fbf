// Printing a refusal.
#![tactic(auto)]

ghost use Rattle.std.specs.Prelude.{◌≡◌};
ghost use Rattle.replies.specs.Replies.{written_said};
ghost use Rattle.pages.specs.Texts.{Filled, print_refusal};

use frames::put_frame;
use replies::Refusal;

// A refusal's line has so many bytes.
const REFUSAL_LINE: usize = 9;

// One line: a refusal's number. Document 01 prints any byte, so this is no `Refusal`.
pub fn print_refusal(number: u8, text: &mut [u8]) -> Result<usize, Refusal>
    ensures { ◌≡◌ {A = Filled} (record { reply = written_said result; buffer = text.new }) (print_refusal number text.old) }
{
    if text.len() < REFUSAL_LINE {
        return Err(Refusal::Room);
    }
    put_frame(0x7f, &[number], text);
    Ok(REFUSAL_LINE)
}
