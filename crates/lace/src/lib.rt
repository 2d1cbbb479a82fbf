// The calls that C makes, by way of `lace_c`; include/lace.h declares them. A refusal is a reserved number.
#![tactic(auto)]

ghost use Rattle.std.specs.Prelude.{◌≡◌};
ghost use Rattle.replies.specs.Replies.{stepped_said, graded_said};
ghost use Rattle.paper.specs.Tables.{step_reply, grade_reply, step_code, grade_code};

use replies::Refusal;

// A step's answer as one number: the next state, 65,534 for refusal 8, 65,535 for refusal 9.
fn step_number(answer: Result<u16, Refusal>) -> u16
    ensures { result ≡ step_code (stepped_said answer) }
{
    match answer {
        Ok(next) => next,
        // Inside `Err`, so that the last arm is told that it is not the letter's.
        Err(why) => match why {
            Refusal::Letter { .. } => 65534,
            _ => 65535,
        },
    }
}

// A grade's answer as one number: the grade, or 255 for refusal 9.
fn grade_number(answer: Result<u8, Refusal>) -> u8
    ensures { result ≡ grade_code (graded_said answer) }
{
    answer.unwrap_or(255)
}

// One step from a state by a letter.
pub fn lace_step(rows: &[u8], count: usize, m: usize, state: usize, letter: usize) -> u16
    ensures { result ≡ step_code (step_reply rows.now count m state letter) }
{
    step_number(steps::step(rows, count, m, state, letter))
}

// The grade of a state.
pub fn lace_grade(rows: &[u8], count: usize, m: usize, state: usize) -> u8
    ensures { result ≡ grade_code (grade_reply rows.now count m state) }
{
    grade_number(steps::grade(rows, count, m, state))
}
