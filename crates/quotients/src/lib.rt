// div of a pair of intervals, written behind what a writer has, before any joining. Special are 0 in the divisor, which is cut out, and MIN by -1, which
// stays MIN.
// Kept: `out`, `left` and `right` apart, since a struct of them would be made for one call and taken apart in it.
#![tactic(auto)]

pub mod div;
pub mod quotient;
