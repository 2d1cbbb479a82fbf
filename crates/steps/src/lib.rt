// One step of a table, and the grade of one state.
#![tactic(auto)]

ghost use Rattle.std.specs.Prelude.{◌≡◌};
ghost use Rattle.paper.specs.Tables.{step_reply, grade_reply};
ghost use Rattle.replies.specs.Replies.{stepped_said, graded_said};

use replies::Refusal;
use rows::{GRADE_TOP, grade_at, next_at, row_fits, size_fits};

// One step from a state by a letter.
pub fn step(
    rows: &[u8],
    count: usize,
    m: usize,
    state: usize,
    letter: usize,
) -> Result<u16, Refusal>
    ensures { stepped_said result ≡ step_reply rows.now count m state letter }
{
    if !size_fits(rows, count, m) {
        return Err(Refusal::Table);
    }
    if count <= state {
        return Err(Refusal::Table);
    }
    if m <= letter {
        return Err(Refusal::Letter { at: 0 });
    }
    if !row_fits(rows, count, m, GRADE_TOP, state) {
        return Err(Refusal::Table);
    }
    Ok(next_at(rows, m, state, letter) as u16)
}

// The grade of a state. The first two tests are those of a step, where the letter's test comes between: document 01 orders the refusals.
pub fn grade(rows: &[u8], count: usize, m: usize, state: usize) -> Result<u8, Refusal>
    ensures { graded_said result ≡ grade_reply rows.now count m state }
{
    if !size_fits(rows, count, m) {
        return Err(Refusal::Table);
    }
    if count <= state {
        return Err(Refusal::Table);
    }
    if !row_fits(rows, count, m, GRADE_TOP, state) {
        return Err(Refusal::Table);
    }
    Ok(grade_at(rows, m, state))
}
