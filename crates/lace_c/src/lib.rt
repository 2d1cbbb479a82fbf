// The calls that C makes, as a static library. include/lace.h declares them; `lace` has them proved.
#![tactic(auto)]

ghost use Rattle.std.specs.Prelude.{◌≡◌};
ghost use Rattle.paper.specs.Tables.{step_reply, grade_reply, step_code, grade_code};

// One step from a state by a letter.
#[unsafe(no_mangle)]
pub extern "C" fn lace_step(rows: &[u8], count: usize, m: usize, state: usize, letter: usize) -> u16
    ensures { result ≡ step_code (step_reply rows.now count m state letter) }
{
    lace::lace_step(rows, count, m, state, letter)
}

// The grade of a state.
#[unsafe(no_mangle)]
pub extern "C" fn lace_grade(rows: &[u8], count: usize, m: usize, state: usize) -> u8
    ensures { result ≡ grade_code (grade_reply rows.now count m state) }
{
    lace::lace_grade(rows, count, m, state)
}
