// Inner: what must hold of each line of a sheet that fits. Each has a `requires`, so only proved code may call them.
#![tactic(auto)]

ghost use Rattle.std.specs.Prelude.{◌≡◌, ◌<◌, true, false, MatchResult};
ghost use Rattle.paper.specs.Lists.{least_fail};
ghost use Rattle.paper.specs.Chart.{letters};
ghost use Rattle.replies.specs.Replies.{said};
ghost use Rattle.places.specs.Search.{place_for};
ghost use Rattle.lines.specs.Held.{next_held, line_held, line_answer};

use index::IndexedSheet;
use next_pairs::{grade_holds, next_holds};
use replies::Refusal;

// The first letter by which line i's next pair is not on the sheet.
pub fn bad_next(indexed: &IndexedSheet, i: usize) -> Option<usize>
    requires { i < indexed.now.sheet.lines }
    ensures { result ≡ place_for (letters indexed.now.sheet.chart.now) (least_fail (letters indexed.now.sheet.chart.now) (next_held indexed.now.sheet i)) }
{
    (0..indexed.sheet.chart.letters()).find(|x| !next_holds(indexed, i, *x))
}

// Whether line i's grade is right, and every next pair of it is on the sheet. It is refused for its grade first, then for its first letter.
pub fn check_line(indexed: &IndexedSheet, i: usize) -> Result<(), Refusal>
    requires { i < indexed.now.sheet.lines }
    ensures { MatchResult result (λ _. line_held indexed.now.sheet i ≡ true) (λ why. (line_held indexed.now.sheet i ≡ false) × (said why ≡ line_answer indexed.now.sheet i)) }
{
    if !grade_holds(&indexed.sheet, i) {
        return Err(Refusal::Line { line: i });
    }
    match bad_next(indexed, i) {
        Some(letter) => Err(Refusal::Next { line: i, letter }),
        None => Ok(()),
    }
}
