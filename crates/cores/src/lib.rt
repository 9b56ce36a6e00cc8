// The operations on whole sets, as one core: the results of all pairs are written one behind the other from the front of the work slice, and joined there. The
// joined set stays at the front of the work slice. Special are a set without intervals, which has no pairs, a divisor that holds 0, which sets the flag, and
// an operation on one set, whose rule is asked once for each interval: its right set is one interval that the rule does not read.
#![tactic(auto)]

ghost use Rattle.std.specs.Prelude.{◌≡◌, ◌||◌, ◌+◌, ◌*◌, ◌/◌, ◌≤◌, length};
ghost use Rattle.meaning.specs.Interval.{each};
ghost use Rattle.meaning.specs.NumberIntervals.{each_pair, intervals, zero_found};
ghost use Rattle.meaning.specs.SetCalls.{need2};
ghost use Rattle.slices.specs.Adds.{Adds};
ghost use Rattle.cores.specs.Cored.{Cored};
ghost use Rattle.cores.specs.Operation.{rule_of, factor_of, set_of, flag_of};

use interval::Interval;
use replies::Written;
use rule::pair;
use sets::{Ends, Operand};
use writer::Writer;

pub mod rule;

// The operations whose answer joins the results of all pairs.
#[derive(Clone, Copy, Debug, PartialEq, Eq)]
pub enum Op {
    Neg,
    Abs,
    Add,
    Sub,
    Mul,
    Div,
    Rem,
}

// The operations on two sets whose answer is 0, 1000 or both.
#[derive(Clone, Copy, Debug, PartialEq, Eq)]
pub enum Relation {
    Le,
    Lt,
    Ne,
    And,
    Or,
}

// The flag of a division: the left set's flag, or a zero found in the divisor with a nonempty left set.
fn zero_flag(left: &[i64], flag: bool, right: &[i64]) -> bool
    ensures { result ≡ (flag || zero_found (intervals left.now) (intervals right.now)) }
{
    flag || (bools::is_filled(left) && sets::contains(right, 0))
}

// The flag of an operation: only a division looks for a zero.
// Kept: a match by the operation's name, as the meaning defines it: a table would be no plainer.
#[tactic(auto, unfolding(meaning::specs::NumberIntervals::flag1, meaning::specs::NumberIntervals::flag2))]
fn flag_of(op: Op, left: &[i64], flag: bool, right: &[i64]) -> bool
    ensures { result ≡ flag_of op flag (intervals left.now) (intervals right.now) }
{
    match op {
        Op::Neg | Op::Abs | Op::Add | Op::Sub | Op::Mul => flag,
        Op::Div | Op::Rem => zero_flag(left, flag, right),
    }
}

// left with each interval of right, one after the other: each pair is lent the unused tail of the work slice.
#[inline(always)]
fn row(op: Op, out: &mut Writer<i64>, left: Interval, right: Ends)
    requires { out.old.len + 2 * factor_of op * (length right.numbers.now / 2) ≤ length out.old.room.now }
    ensures { Adds (each (rule_of op left.lo left.hi) (intervals right.entry.numbers.now)) out.new out.old }
{
    for &[lo, hi] in right.numbers.as_chunks::<2>().0 {
        let count = pair(op, &mut out.room[out.len..], left, Interval { lo, hi });
        out.len += count;
    }
}

// Each interval of left with each of right, by the rule of op. Inlined, as `row` and `pair` are, so that the loops know an operation that `all` names.
#[inline(always)]
fn rows(op: Op, out: &mut Writer<i64>, left: Ends, right: Ends)
    requires { out.old.len + 2 * factor_of op * (length right.numbers.now / 2) * (length left.numbers.now / 2) ≤ length out.old.room.now }
    ensures { Adds (each_pair (rule_of op) (intervals left.entry.numbers.now) (intervals right.entry.numbers.now)) out.new out.old }
{
    for &[lo, hi] in left.numbers.as_chunks::<2>().0 {
        row(op, out, Interval { lo, hi }, right);
    }
}

// Each interval of left with each of right.
// Kept: rem by its name, since where the operation is a value the rule is chosen anew for each pair, and rem of 16 intervals takes 1.4 times as long so.
fn all(op: Op, out: &mut Writer<i64>, left: Ends, right: Ends)
    requires { out.old.len + 2 * factor_of op * (length right.numbers.now / 2) * (length left.numbers.now / 2) ≤ length out.old.room.now }
    ensures { Adds (each_pair (rule_of op) (intervals left.entry.numbers.now) (intervals right.entry.numbers.now)) out.new out.old }
{
    match op {
        Op::Rem => rows(Op::Rem, out, left, right),
        _ => rows(op, out, left, right),
    }
}

// The joined results at the front of work, and the flag.
// Kept: operation, left set, flag and right set each by itself: a struct of the four would be made for this one call, and taken apart in it.
pub fn answer(op: Op, work: &mut [i64], left: Operand, flag: bool, right: Operand) -> Written
    requires { need2 (factor_of op) left.set.numbers.now right.set.numbers.now ≤ length work.old }
    ensures { Cored (set_of op (intervals left.entry.set.numbers.now) (intervals right.entry.set.numbers.now))
        (flag_of op flag (intervals left.entry.set.numbers.now) (intervals right.entry.set.numbers.now))
        (need2 (factor_of op) left.entry.set.numbers.now right.entry.set.numbers.now) work.old work.new result }
{
    let flag = flag_of(op, left.set.numbers, flag, right.set.numbers);
    let mut results = Writer::new(work);
    all(op, &mut results, left.set, right.set);
    let written = results.len;
    let count = sets::rebuild(&mut work[..written]);
    Written { count, flag }
}
