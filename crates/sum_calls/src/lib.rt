// The set calls whose answer holds just the point results and keeps the left set's flag: neg, abs, add and sub. A set is the ends of its
// intervals in a slice, its flag beside it; `number_intervals` says which slices are sets. Special is MIN, which is its own negative and
// magnitude, and a sum past the end of the range, which goes on at the other end. neg and abs hand on the right set 0, which their rules do not read.
// Kept: a function for each operation, since C, Rust and Python call each by a name of its own; what they share is `joined`.
#![tactic(auto)]

ghost use Rattle.meaning.specs.Number as point;
ghost use Rattle.meaning.specs.Promises.{Works1, Works2};
ghost use Rattle.replies.specs.Returning.{returned};

use cores::Op;
use refusals::Cause;
use replies::Written;
use set_calls::joined;

// The set of the negatives of all members.
pub fn neg(left: &[i64], flag: bool, work: &mut [i64], out: &mut [i64]) -> Result<Written, Cause>
    ensures works1 { Works1 point.neg left.now flag out.old work.old (returned result) out.new work.new }
{
    let zero = [0i64; 2];
    joined(Op::Neg, left, flag, &zero, work, out)
}

// The set of the magnitudes of all members.
pub fn abs(left: &[i64], flag: bool, work: &mut [i64], out: &mut [i64]) -> Result<Written, Cause>
    ensures works1 { Works1 point.abs left.now flag out.old work.old (returned result) out.new work.new }
{
    let zero = [0i64; 2];
    joined(Op::Abs, left, flag, &zero, work, out)
}

// The set of the sums of all members.
pub fn add(
    left: &[i64],
    flag: bool,
    right: &[i64],
    work: &mut [i64],
    out: &mut [i64],
) -> Result<Written, Cause>
    ensures works2 { Works2 point.add left.now flag right.now out.old work.old (returned result) out.new work.new }
{
    joined(Op::Add, left, flag, right, work, out)
}

// The set of the differences of all members.
pub fn sub(
    left: &[i64],
    flag: bool,
    right: &[i64],
    work: &mut [i64],
    out: &mut [i64],
) -> Result<Written, Cause>
    ensures works2 { Works2 point.sub left.now flag right.now out.old work.old (returned result) out.new work.new }
{
    joined(Op::Sub, left, flag, right, work, out)
}
