// Comparing lists of numbers. The theory of comparison itself, which other crates build their orders on, is in specs/
// (the definitions) and proofs/ (the laws).
#![tactic(auto)]

ghost use Rattle.std.specs.Prelude.{◌≡◌, get_or};
ghost use Prim.Native.Nat.{compare, min, ◌≤◌};
ghost use Rattle.order.specs.Compare.{padded};
ghost use Rattle.order.specs.Answer.{name_of};

use std::cmp::Ordering;

// The number at a place, and 0 past the end.
pub fn number_at(s: &[u64], at: usize) -> u64
    ensures { result ≡ get_or s.now at 0 }
{
    s.get(at).copied().unwrap_or(0)
}

// The smaller of two lengths.
pub fn smaller(a: usize, b: usize) -> usize
    ensures { result ≡ min a b }
{
    a.min(b)
}

// How the numbers of `a` compare with those of `b`, the first difference deciding, the shorter list continued with zeros.
pub fn compare_numbers(a: &[u64], b: &[u64]) -> Ordering
    ensures { result ≡ name_of (padded compare 0 a.now b.now) }
{
    for i in 0..a.len().max(b.len()) {
        let x = number_at(a, i);
        let y = number_at(b, i);
        if x != y {
            return x.cmp(&y);
        }
    }
    Ordering::Equal
}
