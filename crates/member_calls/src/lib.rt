// The set calls whose answer holds members of its arguments: union and intersect. A set is the ends of its intervals in a slice; `number_intervals` says which slices are sets.
// The flag of an answer is false. Special is the empty set, which adds nothing to a union and leaves nothing of an intersection.
// Kept: a function for each operation, since C, Rust and Python call each by a name of its own; what they share is `accept_both` and `hand_out`.
#![tactic(auto)]

ghost use Rattle.std.specs.Prelude.{◌≡◌};
ghost use Rattle.meaning.specs.Promises.{Unites, Meets};
ghost use Rattle.meaning.specs.SetCalls.{refusal2};
ghost use Rattle.sets.specs.Sets.{Argument};
ghost use Rattle.replies.specs.Returning.{returned};

use refusals::Cause;
use replies::{Written, accept_both, hand_out};
use writer::Writer;

// The set of the members of either.
pub fn union(left: &[i64], right: &[i64], out: &mut [i64]) -> Result<Written, Cause>
    ensures unites { Unites left.now right.now out.old (returned result) out.new }
    ensures arguments { (refusal2 left.now right.now ≡ 0 → Argument left.now × Argument right.now) }
{
    let (left, right) = accept_both(left, right)?;
    let mut ends = [0i64; 64];
    let count = sets::unite(&mut ends, left.set, right.set);
    hand_out(out, &ends[..count], false)
}

// The set of the members of both.
// Kept: room, writer and end in three lines, as in `hand_bools` and `within`: a function that takes what is written as a closure would be no shorter at its calls.
pub fn intersect(left: &[i64], right: &[i64], out: &mut [i64]) -> Result<Written, Cause>
    ensures meets { Meets left.now right.now out.old (returned result) out.new }
    ensures arguments { (refusal2 left.now right.now ≡ 0 → Argument left.now × Argument right.now) }
{
    let (left, right) = accept_both(left, right)?;
    let mut ends = [0i64; 64];
    let mut common = Writer::new(&mut ends);
    sets::meet(&mut common, left.set, right.set);
    hand_out(out, common.written(), false)
}
