// What the public set calls share: what they answer, the refusal of their arguments, the need of work, and the end of the call.
#![tactic(auto)]

ghost use Rattle.std.specs.Prelude.{◌≡◌, cond, ◌*◌, ◌/◌, ◌≤◌, ltb, length, take, replicate, pos, IfOk, OnOk};
ghost use Rattle.meaning.specs.Lists.{over};
ghost use Rattle.meaning.specs.Refusals.{no_room};
ghost use Rattle.meaning.specs.SetCalls as call;
ghost use Rattle.refusals.specs.Endings.{code_of};
ghost use Rattle.sets.specs.Sets.{Argument};
ghost use Rattle.replies.specs.Returning.{returned};

use limits::ENDS;
use refusals::Cause;
use sets::{Ends, Operand, is_normal};
use writer::copy;

// How many numbers of an answer were written, and its flag.
// Kept: the flag beside the count, since it is part of the answer, and no sign of a missing one.
#[derive(Clone, Copy, Debug, PartialEq, Eq)]
pub struct Written {
    pub count: usize,
    pub flag: bool,
}

// Refuses a set of over 16 intervals, and then one that is not normal.
#[tactic(auto, unfolding(meaning::specs::SetCalls::refusal))]
fn judged(s: &[i64]) -> Result<(), Cause>
    ensures refused { code_of result ≡ call.refusal s.now }
    ensures argument { OnOk result (Argument s.now) }
{
    if ENDS < s.len() {
        return Err(Cause::TooMany);
    }
    if !is_normal(s) {
        return Err(Cause::NotNormal);
    }
    Ok(())
}

// The operand that a set is, if it is not refused.
// Kept: a function and no TryFrom, which would have to stand beside `Operand`, in a crate that knows no refusals.
#[inline]
pub fn accept(s: &[i64]) -> Result<Operand, Cause>
    ensures refused { code_of result ≡ call.refusal s.now }
    ensures same { IfOk result (λ operand. operand.set.numbers.now ≡ s.now) }
{
    judged(s)?;
    Ok(Operand {
        set: Ends { numbers: s },
    })
}

// The operands that two sets are; the left set is refused before the right set.
#[inline]
#[tactic(auto, using(refusals::proofs::Rows::number_not_zero), unfolding(meaning::specs::SetCalls::refusal2))]
pub fn accept_both<'a>(
    left: &'a [i64],
    right: &'a [i64],
) -> Result<(Operand<'a>, Operand<'a>), Cause>
    ensures refused { code_of result ≡ call.refusal2 left.now right.now }
    ensures same { IfOk result (λ operands. (operands.0.set.numbers.now ≡ left.now) × (operands.1.set.numbers.now ≡ right.now)) }
{
    Ok((accept(left)?, accept(right)?))
}

// The need of work, 2·k numbers for each pair of intervals; left and right are how many numbers the sets have, two for each interval.
pub fn need(k: usize, left: usize, right: usize) -> usize
    requires { (k ≤ 16) × (left ≤ 32) × (right ≤ 32) }
    ensures { result ≡ 2 * k * (left / 2) * (right / 2) }
{
    2 * k * (left / 2) * (right / 2)
}

// The ends of an answer to out, if it has room for them.
#[tactic(auto, unfolding(meaning::specs::Lists::over))]
pub fn hand_out(out: &mut [i64], ends: &[i64], flag: bool) -> Result<Written, Cause>
    ensures { (returned result ≡ cond (ltb (length out.old) (length ends.now)) (call.refused no_room) (call.written (length ends.now) flag))
        × (out.new ≡ cond (ltb (length out.old) (length ends.now)) out.old (over ends.now out.old)) }
{
    let count = ends.len();
    if out.len() < count {
        return Err(Cause::NoRoom);
    }
    copy(&mut out[..count], ends);
    Ok(Written { count, flag })
}

// What was written to the front of work handed out, and then all numbers of work become 0.
pub fn finish(out: &mut [i64], work: &mut [i64], written: Written) -> Result<Written, Cause>
    requires { written.count ≤ length work.old }
    ensures { (returned result ≡ cond (ltb (length out.old) written.count) (call.refused no_room) (call.written written.count written.flag))
        × (out.new ≡ cond (ltb (length out.old) written.count) out.old (over (take written.count work.old) out.old))
        × (work.new ≡ replicate (length work.old) (pos 0)) }
{
    let answer = hand_out(out, &work[..written.count], written.flag);
    work.fill(0);
    answer
}
