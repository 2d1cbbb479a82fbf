// The bench reader: a lent table and the present state. Its methods are thin, over `steps`.
ghost use Rattle.std.specs.Prelude.{◌≡◌};
ghost use Rattle.replies.specs.Replies.{stepped_said, graded_said};
ghost use Rattle.paper.specs.Tables.{grade_reply, state_after, reader_state};
ghost use Rattle.bench.specs.Bench.{answer_to, grade_answer, taken};

use replies::Refusal;

// A table by its rows, state count and number of letters, and a state. The rows may be anything: each method answers for them.
#[derive(Clone, Copy, Debug, PartialEq, Eq)]
pub struct Reader<'a> {
    pub rows: &'a [u8],
    pub count: usize,
    pub m: usize,
    pub state: usize,
}

impl<'a> Reader<'a> {
    // A reader at state 0. Making it refuses nothing.
    pub fn new(rows: &'a [u8], count: usize, m: usize) -> Self
        ensures { (result.rows ≡ rows.entry) × (result.count ≡ count) × (result.m ≡ m) × (result.state ≡ 0) }
    {
        Reader {
            rows,
            count,
            m,
            state: 0,
        }
    }

    // Takes one letter, and says what it is answered. A refused letter leaves the state as it was.
    pub fn step(&mut self, letter: usize) -> Result<u16, Refusal>
        ensures { (stepped_said result ≡ answer_to self.old letter) × (self.new ≡ taken self.old letter) }
    {
        let answer = steps::step(self.rows, self.count, self.m, self.state, letter);
        self.state = state_after(self.state, answer);
        answer
    }

    // The grade of the present state.
    pub fn grade(self) -> Result<u8, Refusal>
        ensures { graded_said result ≡ grade_answer self.entry }
    {
        steps::grade(self.rows, self.count, self.m, self.state)
    }
}

// The state that a letter's answer leaves: a refused letter leaves it as it was.
fn state_after(state: usize, answer: Result<u16, Refusal>) -> usize
    ensures { result ≡ state_after state (stepped_said answer) }
{
    match answer {
        Ok(next) => usize::from(next),
        Err(_) => state,
    }
}

// Reads a word letter by letter, as a reader that starts at state 0 does, and then asks for its grade. A refused letter leaves the state as it was.
// Where `tables::grade_word` refuses nothing, both answer the same grade (`same_answer` in proofs/Words.antt).
pub fn read_word(rows: &[u8], count: usize, m: usize, word: &[u8]) -> Result<u8, Refusal>
    ensures { graded_said result ≡ grade_reply rows.now count m (reader_state rows.now count m word.now) }
{
    let mut reader = Reader::new(rows, count, m);
    for letter in word {
        let _ = reader.step(usize::from(*letter));
    }
    reader.grade()
}
