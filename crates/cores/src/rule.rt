// The rule of each operation, by the operation's name.
ghost use Rattle.std.specs.Prelude.{◌≡◌, ◌+◌, ◌*◌, ◌≤◌, length};
ghost use Rattle.meaning.specs.NumberIntervals.{intervals};
ghost use Rattle.slices.specs.Wrote.{Wrote};
ghost use Rattle.bools.specs.Reading.{bools_of};
ghost use Rattle.cores.specs.Operation.{rule_of, factor_of, relation_of};

use crate::{Op, Relation};
use bools::BoolInterval;
use interval::Interval;
use interval::sign::{abs_pair, neg_pair};
use interval::sum::{add_pair, sub_pair};
use products::mul_pair;
use quotients::div::div_pair;
use remainders::rem_pair;
use sets::Operand;
use writer::Writer;

// The results of left and right, written from the front of the unused tail of the work slice; returns how many numbers these are.
// Kept: lent the tail, and not the writer that `row` has, by a rule of the project.
// Kept: a match in place of a trait, since each row is a call of its own, and the operation is a value read from a text.
#[inline(always)]
#[tactic(auto, unfolding(meaning::specs::SetCalls::factor1, meaning::specs::SetCalls::factor2))]
pub fn pair(op: Op, tail: &mut [i64], left: Interval, right: Interval) -> usize
    requires { 2 * factor_of op ≤ length tail.old }
    ensures { Wrote result (rule_of op left.lo left.hi right.lo right.hi) tail.new tail.old }
{
    let mut out = Writer::new(tail);
    match op {
        Op::Neg => neg_pair(&mut out, left),
        Op::Abs => abs_pair(&mut out, left),
        Op::Add => add_pair(&mut out, left, right),
        Op::Sub => sub_pair(&mut out, left, right),
        Op::Mul => mul_pair(&mut out, left, right),
        Op::Div => div_pair(&mut out, left, right),
        Op::Rem => rem_pair(&mut out, left, right),
    }
    out.len
}

// How many intervals the rule may write.
// Kept: a match by the operation's name, as the meaning defines it: a table would be no plainer.
#[tactic(auto, unfolding(meaning::specs::SetCalls::factor1, meaning::specs::SetCalls::factor2))]
pub fn factor(op: Op) -> usize
    ensures { result ≡ factor_of op }
{
    match op {
        Op::Neg | Op::Abs | Op::Add | Op::Sub | Op::Mul => 2,
        Op::Div => 12,
        Op::Rem => 16,
    }
}

// What the operation may give of two members: 0, 1000 or both.
// Kept: a match in place of a trait, since each row is a call of its own, and the operation is a value read from a text.
pub fn relate(op: Relation, left: Operand, right: Operand) -> BoolInterval
    ensures { bools_of result ≡ relation_of op (intervals left.entry.set.numbers.now) (intervals right.entry.set.numbers.now) }
{
    match op {
        Relation::Le => bools::le(left.set, right.set),
        Relation::Lt => bools::lt(left.set, right.set),
        Relation::Ne => bools::ne(left, right),
        Relation::And => bools::and(
            bools::of_set(left.set.numbers),
            bools::of_set(right.set.numbers),
        ),
        Relation::Or => bools::or(
            bools::of_set(left.set.numbers),
            bools::of_set(right.set.numbers),
        ),
    }
}
