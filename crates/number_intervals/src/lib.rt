// The 17 set calls, by their kinds. Sets of numbers travel as ends in slices, the flag beside them. An argument is a normal set of at most 16 intervals: sorted, no overlap, at least one
// number missing between neighbours. Special are the empty slice, which is the empty set and which nearest and within alone refuse, an odd length, which is no set, and a divisor that holds 0, which
// sets the flag if the left set has a member. Each call returns how many numbers it wrote and the flag (nearest: a member), or the cause of its refusal; what follows the answer, or the need of work,
// is as lent.
#![tactic(auto)]

pub use member_calls::{intersect, union};
pub use product_calls::{div, mul, rem};
pub use setpoints::{nearest, within};
pub use sum_calls::{abs, add, neg, sub};
pub use truth_calls::{and, int_le, int_lt, int_ne, not, or};
