// The set calls whose answer holds at least the point results: mul, div and rem. A set is the ends of its intervals in a slice, its flag
// beside it; `number_intervals` says which slices are sets. Special is a divisor that holds 0, which sets the flag if the left set has a member.
// Kept: a function for each operation, since C, Rust and Python call each by a name of its own; what they share is `joined`.
#![tactic(auto)]

ghost use Rattle.meaning.specs.Number as point;
ghost use Rattle.meaning.specs.Promises.{Works2};
ghost use Rattle.replies.specs.Returning.{returned};

use cores::Op;
use refusals::Cause;
use replies::Written;
use set_calls::joined;

// A set that holds the products of all members.
pub fn mul(
    left: &[i64],
    flag: bool,
    right: &[i64],
    work: &mut [i64],
    out: &mut [i64],
) -> Result<Written, Cause>
    ensures works2 { Works2 point.mul left.now flag right.now out.old work.old (returned result) out.new work.new }
{
    joined(Op::Mul, left, flag, right, work, out)
}

// A set that holds the quotients of all members; a zero in the divisor sets the flag, if the left set has a member.
pub fn div(
    left: &[i64],
    flag: bool,
    right: &[i64],
    work: &mut [i64],
    out: &mut [i64],
) -> Result<Written, Cause>
    ensures works2 { Works2 point.div left.now flag right.now out.old work.old (returned result) out.new work.new }
{
    joined(Op::Div, left, flag, right, work, out)
}

// A set that holds the remainders of all members; a zero in the divisor sets the flag, if the left set has a member.
pub fn rem(
    left: &[i64],
    flag: bool,
    right: &[i64],
    work: &mut [i64],
    out: &mut [i64],
) -> Result<Written, Cause>
    ensures works2 { Works2 point.rem left.now flag right.now out.old work.old (returned result) out.new work.new }
{
    joined(Op::Rem, left, flag, right, work, out)
}
