// Numbers of keys, comparing bytes, and an index of kept numbers by buckets.
#![tactic(auto)]

pub mod chains;

ghost use Rattle.std.specs.Prelude.{◌≡◌};
ghost use Rattle.paper.specs.Lists.{same_list};
ghost use Rattle.marks.specs.Marks.{mark_of};

// The number of a key: equal keys have equal numbers.
pub fn mark(key: &[u8]) -> u32
    ensures { result ≡ mark_of key.now }
{
    let mut sum: u32 = 0;
    for byte in key {
        sum = sum.wrapping_mul(33).wrapping_add(u32::from(*byte));
    }
    sum
}

// Whether two slices hold the same bytes: every comparison of keys, values and pairs goes by it.
#[tactic(auto, using(lists::proofs::ByPlace::same_pointwise, lists::proofs::ByPlace::same_not, std::proofs::lemmas::List::take_all))]
pub fn same(a: &[u8], b: &[u8]) -> bool
    ensures { result ≡ same_list a.now b.now }
{
    a == b
}
