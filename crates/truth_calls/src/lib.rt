// The set calls whose answer is made of 0 and 1000: not, and, or and the comparisons. A set is the ends of its intervals in a slice; `number_intervals` says which slices are sets.
// The flag of an answer is false. Special are empty sets: `and`, `or` and `int_ne` of one may hold more than the point results, of which there are none.
// Kept: a function for each operation, since C, Rust and Python call each by a name of its own; what they share is `related`.
#![tactic(auto)]

ghost use Rattle.std.specs.Prelude.{◌≡◌};
ghost use Rattle.meaning.specs.Number as point;
ghost use Rattle.meaning.specs.Promises.{Gives1, Gives2};
ghost use Rattle.meaning.specs.SetCalls.{refusal};
ghost use Rattle.sets.specs.Sets.{Argument};
ghost use Rattle.replies.specs.Returning.{returned};

use cores::Relation;
use refusals::Cause;
use replies::{Written, accept};
use set_calls::{hand_bools, related};

// The set of what `not` gives of all members: none, 0, 1000 or both.
pub fn not(left: &[i64], out: &mut [i64]) -> Result<Written, Cause>
    ensures gives1 { Gives1 point.not' left.now out.old (returned result) out.new }
    ensures argument { (refusal left.now ≡ 0 → Argument left.now) }
{
    accept(left)?;
    hand_bools(out, bools::not(bools::of_set(left)))
}

// A set that holds what `and` gives of all members: none, 0, 1000 or both; it may hold more where a set is empty.
pub fn and(left: &[i64], right: &[i64], out: &mut [i64]) -> Result<Written, Cause>
    ensures gives2 { Gives2 point.and left.now right.now out.old (returned result) out.new }
{
    related(Relation::And, left, right, out)
}

// A set that holds what `or` gives of all members: none, 0, 1000 or both; it may hold more where a set is empty.
pub fn or(left: &[i64], right: &[i64], out: &mut [i64]) -> Result<Written, Cause>
    ensures gives2 { Gives2 point.or left.now right.now out.old (returned result) out.new }
{
    related(Relation::Or, left, right, out)
}

// The set of what `<=` gives of all members: none, 0, 1000 or both.
pub fn int_le(left: &[i64], right: &[i64], out: &mut [i64]) -> Result<Written, Cause>
    ensures gives2 { Gives2 point.le left.now right.now out.old (returned result) out.new }
{
    related(Relation::Le, left, right, out)
}

// The set of what `<` gives of all members: none, 0, 1000 or both.
pub fn int_lt(left: &[i64], right: &[i64], out: &mut [i64]) -> Result<Written, Cause>
    ensures gives2 { Gives2 point.lt left.now right.now out.old (returned result) out.new }
{
    related(Relation::Lt, left, right, out)
}

// A set that holds what `!=` gives of all members: 0, 1000 or both; 1000 where a set is empty.
pub fn int_ne(left: &[i64], right: &[i64], out: &mut [i64]) -> Result<Written, Cause>
    ensures gives2 { Gives2 point.ne left.now right.now out.old (returned result) out.new }
{
    related(Relation::Ne, left, right, out)
}
