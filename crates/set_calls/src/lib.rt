// What the public calls of a kind share: the refusals in their order, the operation by its name, and the end of the call.
#![tactic(auto)]

ghost use Rattle.std.specs.Prelude.{◌≡◌, false};
ghost use Rattle.meaning.specs.NumberIntervals.{intervals, of_bools, set2, flag2};
ghost use Rattle.meaning.specs.SetCalls.{refusal2 as refused2, need2, factor2};
ghost use Rattle.bools.specs.Reading.{bools_of};
ghost use Rattle.sets.specs.Sets.{Argument};
ghost use Rattle.cores.specs.Operation.{factor_of, set_of, flag_of, op2_of};
ghost use Rattle.replies.specs.Returning.{returned, Ended, Handed};

use bools::BoolInterval;
use cores::{Op, Relation};
use refusals::Cause;
use replies::{Written, accept_both, finish, hand_out, need};
use writer::Writer;

// The answer joins the results of all pairs: a refused argument, too little work, or the answer handed out. Inlined, so that its answer is not moved once more.
// Kept: the operation by its name, since the check reads it from a text and the core serves both.
// Kept: operation, left set, flag and right set each by itself: seven calls would make the struct of the four that is taken apart here.
#[inline(always)]
pub fn joined(
    op: Op,
    left: &[i64],
    flag: bool,
    right: &[i64],
    work: &mut [i64],
    out: &mut [i64],
) -> Result<Written, Cause>
    ensures ended { Ended (refused2 left.now right.now) (need2 (factor_of op) left.now right.now)
        (set_of op (intervals left.now) (intervals right.now)) (flag_of op flag (intervals left.now) (intervals right.now))
        out.old work.old (returned result) out.new work.new }
    ensures arguments { (refused2 left.now right.now ≡ 0 → Argument left.now × Argument right.now) }
{
    let (left, right) = accept_both(left, right)?;
    let needed = need(
        cores::rule::factor(op),
        left.set.numbers.len(),
        right.set.numbers.len(),
    );
    if work.len() < needed {
        return Err(Cause::TooShort);
    }
    let written = cores::answer(op, work, left, flag, right);
    finish(out, &mut work[..needed], written)
}

// What a result may be, handed out as a set.
// Kept: room, writer and end in three lines, as in `intersect` and `within`: a function that takes what is written as a closure would be no shorter at its calls.
pub fn hand_bools(out: &mut [i64], may: BoolInterval) -> Result<Written, Cause>
    ensures { Handed 0 0 (of_bools (bools_of may)) false out.old (returned result) out.new }
{
    let mut ends = [0i64; 4];
    let mut set = Writer::new(&mut ends);
    bools::put(&mut set, may);
    hand_out(out, set.written(), false)
}

// What the relation may give of two members, handed out: a refused argument, or 0, 1000 or both. Inlined as `joined` is.
#[inline(always)]
pub fn related(op: Relation, left: &[i64], right: &[i64], out: &mut [i64]) -> Result<Written, Cause>
    ensures answered { Handed (refused2 left.now right.now) (need2 (factor2 (op2_of op)) left.now right.now)
        (set2 (op2_of op) (intervals left.now) (intervals right.now)) (flag2 (op2_of op) false (intervals left.now) (intervals right.now))
        out.old (returned result) out.new }
    ensures arguments { (refused2 left.now right.now ≡ 0 → Argument left.now × Argument right.now) }
{
    let (left, right) = accept_both(left, right)?;
    hand_bools(out, cores::rule::relate(op, left, right))
}
