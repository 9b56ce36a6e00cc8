// An interval is a start and an end, start at most end, both from MIN to MAX. The rules of neg, abs, add and sub take one interval or a pair of them and
// write the ends of the result behind what a writer has already, before any joining. Special are MIN, which negation keeps, and ends that wrap, where the
// result is split at the end of the range.
// Kept: `out`, `left` and `right` apart, since a struct of them would be made for one call and taken apart in it.
#![tactic(auto)]

ghost use Rattle.std.specs.Prelude.{◌≤ℤ◌};

pub mod divisor;
pub mod parts;
pub mod sign;
pub mod sum;
pub mod without_zero;

// The numbers from lo to hi, both included.
#[derive(Clone, Copy, Debug, PartialEq, Eq)]
pub struct Interval {
    pub lo: i64,
    pub hi: i64,
    ghost ordered: { lo ≤ℤ hi },
}
