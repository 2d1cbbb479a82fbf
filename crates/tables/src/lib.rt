// Checking a table, and the grade of a word by it.
#![tactic(auto)]

ghost use Rattle.std.specs.Prelude.{◌≡◌, length};
ghost use Rattle.paper.specs.Tables.{bad_letter, table_grade, table_reply, word_reply};
ghost use Rattle.replies.specs.Replies.{verdict_said, graded_said};
ghost use Rattle.tables.specs.Walking.{Walkable};
ghost use Rattle.places.specs.Search.{place_for};

use replies::Refusal;
use rows::{GRADE_TOP, grade_at, next_at, table_fits};

// Whether a table, by itself, is one that can be walked from every state.
pub fn check_table(rows: &[u8], count: usize, m: usize) -> Result<(), Refusal>
    ensures { verdict_said result ≡ table_reply rows.now count m }
{
    if !table_fits(rows, count, m, GRADE_TOP) {
        return Err(Refusal::Table);
    }
    Ok(())
}

// The first place of a word whose letter is not one of m.
fn bad_letter(word: &[u8], m: usize) -> Option<usize>
    ensures { result ≡ place_for (length word.now) (bad_letter word.now m) }
{
    word.iter().position(|letter| m <= usize::from(*letter))
}

fn walk(rows: &[u8], count: usize, m: usize, word: &[u8]) -> u8
    requires { Walkable rows.now count m word.now }
    ensures { result ≡ table_grade rows.now m word.now }
{
    let mut s = 0;
    for letter in word {
        s = next_at(rows, m, s, usize::from(*letter));
    }
    grade_at(rows, m, s)
}

// The grade of a word: the whole table is checked first, then all letters.
pub fn grade_word(rows: &[u8], count: usize, m: usize, word: &[u8]) -> Result<u8, Refusal>
    ensures { graded_said result ≡ word_reply rows.now count m word.now }
{
    check_table(rows, count, m)?;
    match bad_letter(word, m) {
        Some(at) => Err(Refusal::Letter { at }),
        None => Ok(walk(rows, count, m, word)),
    }
}
