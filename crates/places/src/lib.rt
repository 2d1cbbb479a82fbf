// What a search answers (specs/), and the vector behind a state.
#![tactic(auto)]

ghost use Rattle.std.specs.Prelude.{◌≡◌, ◌+◌, ◌*◌};
ghost use Rattle.paper.specs.Builders.{vector_at};

// The vector behind a state: the part of the caller's bytes that holds it. It is empty where the state is not below the count, or its place is
// not whole: document 01 says so, and refuses nothing here.
pub fn vector_at(vectors: &[u8], n: usize, count: usize, state: usize) -> &[u8]
    ensures { result.now ≡ vector_at vectors.now n count state }
{
    if count <= state {
        return &vectors[0..0];
    }
    if n == 0 {
        return &vectors[0..0];
    }
    if vectors.len() / n <= state {
        return &vectors[0..0];
    }
    let from = state * n;
    let to = from + n;
    &vectors[from..to]
}
