// The four constructions, and the plan by which one of them is made.
#![tactic(auto)]

ghost use Rattle.std.specs.Prelude.{◌≡◌};
ghost use Rattle.kinds.specs.Kinds.{keyed};

pub mod plan;

// A kind decides first value, step, key and grade together, and contracts say by one word, `made`, which construction that is. Traits or
// closures would carry the four, with their laws, through every contract from the search to the walk; there are no other kinds.
#[derive(Clone, Copy, Debug, PartialEq, Eq)]
pub enum Kind {
    Nerode,
    Reduced,
    Reverse,
    Rows,
}

// Whether values have keys of their own: in the reduced table. Elsewhere a value is its own key.
pub fn keyed(kind: Kind) -> bool
    ensures { result ≡ keyed kind }
{
    matches!(kind, Kind::Reduced)
}
