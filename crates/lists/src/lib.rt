// Lists by place: the laws of `paper`'s definitions are in proofs/, and here is what fills lent memory, and makes it.
#![tactic(auto)]

ghost use Rattle.std.specs.Prelude.{◌≡◌, replicate};
ghost use Rattle.paper.specs.Lists.{zeros};

// Zeros in the whole of `out`.
pub fn zero(out: &mut [u8])
    ensures { out.new ≡ zeros out.old }
{
    out.fill(0);
}

// A buffer of N zeros, for memory that a caller lends.
pub fn blank<const N: usize>() -> [u8; N]
    ensures { result ≡ replicate N 0 }
{
    [0; N]
}
