// Inner: the lines of a sheet that fits and has an index.
#![tactic(auto)]

ghost use Rattle.std.specs.Prelude.{◌≡◌};
ghost use Rattle.replies.specs.Replies.{verdict_said};
ghost use Rattle.lines.specs.Held.{lines_answer};

use index::IndexedSheet;
use pairs::check_line;
use replies::Refusal;

// The lines one after the other, up to the first that does not hold.
pub fn check_lines(indexed: &IndexedSheet) -> Result<(), Refusal>
    ensures { verdict_said result ≡ lines_answer indexed.now.sheet }
{
    for i in 0..indexed.sheet.lines {
        check_line(indexed, i)?;
    }
    Ok(())
}
