// A form's set by value, and the answer of an operation on such sets: `Cause::ZeroDivisor` if a divisor may be 0, else its set with gaps closed until 16 intervals remain.
#![tactic(auto)]

ghost use Rattle.std.specs.Prelude.{◌≡◌, false, ◌≤◌, length, take};
ghost use Rattle.std.specs.Prelude.{Some};
ghost use Rattle.meaning.specs.NumberIntervals.{intervals, of_bools, set1, set2, flag1, flag2};
ghost use Rattle.meaning.specs.Check.{settle as settle_of, interval_limit};
ghost use Rattle.forms.specs.Answer.{op1_of, op2_of};
ghost use Rattle.bools.specs.Reading.{bools_of};
ghost use Rattle.cores.specs.Operation.{set_of as joined_of, flag_of};
ghost use Rattle.set_values.specs.Value.{result_of, Settles, Left, kind_of, answer1, answer2};

mod form_set;
mod registers;

use bools::BoolInterval;
use cores::{Op, Relation};
pub use form_set::FormSet;
use forms::{Op1, Op2};
use limits::{INTERVALS, WORK};
use refusals::Cause;
pub use registers::Registers;
use replies::Written;
use sets::{Ends, Operand};
use writer::Writer;

// What a form's answer leaves: a zero divisor if its flag is set, else its set with gaps closed until 16 intervals remain.
#[tactic(auto, using(crate::proofs::Settling::flagged, crate::proofs::Settling::passed_two, crate::proofs::Settling::any_closed_few, crate::proofs::Settling::closed_is))]
#[inline(always)]
fn settle(work: &mut [i64; WORK], answer: Written) -> Result<FormSet, Cause>
    requires { Settles answer work.old }
    ensures { result_of result ≡ settle_of interval_limit (intervals (take answer.count work.old)) answer.flag }
{
    if answer.flag {
        return Err(Cause::ZeroDivisor);
    }
    let ends = &mut work[..answer.count];
    let n = closing::close(ends, INTERVALS);
    Ok(FormSet::new(&ends[..n]))
}

// A comparison's or a bool's answer at the front of the work slice.
fn put_bools(work: &mut [i64; WORK], b: BoolInterval) -> Written
    ensures { Left (of_bools (bools_of b)) false work.new result }
{
    let mut ends = Writer::new(work);
    bools::put(&mut ends, b);
    Written {
        count: ends.len,
        flag: false,
    }
}

// The joined results of all pairs at the front of the work slice.
fn join(op: Op, left: Operand, right: Operand, work: &mut [i64; WORK]) -> Written
    ensures { Left (joined_of op (intervals left.entry.set.numbers.now) (intervals right.entry.set.numbers.now))
        (flag_of op false (intervals left.entry.set.numbers.now) (intervals right.entry.set.numbers.now)) work.new result }
{
    cores::answer(op, work, left, false, right)
}

// The answer of an operation on one set. A rule of one set does not read the right set, which is 0.
// Kept: a right set that nobody reads, since one core serves operations on one set and on two: a core for one set would be its twin.
// Kept: a match in place of a trait, since each row is a call of its own, and the operation is a value read from a text.
fn core1(op: Op1, left: Operand, work: &mut [i64; WORK]) -> Written
    ensures { Left (set1 (op1_of op) (intervals left.entry.set.numbers.now)) (flag1 (op1_of op) false) work.new result }
{
    let zero = Operand {
        set: Ends { numbers: &[0; 2] },
    };
    match op {
        Op1::Neg => join(Op::Neg, left, zero, work),
        Op1::Abs => join(Op::Abs, left, zero, work),
        Op1::Not => put_bools(work, bools::not(bools::of_set(left.set.numbers))),
    }
}

// How the answer of an operation on two sets is made: joined of all pairs' results, or 0, 1000 or both.
#[derive(Clone, Copy)]
enum Kind {
    Joined(Op),
    Related(Relation),
}

// The kind of the operation that a form names.
// Kept: a row for each operation, since the forms and the cores name it each by an enum of its own, and the first sorts it by its sets.
impl From<Op2> for Kind {
    ghost from_gives = { λ op kind. kind_of kind ≡ Some (op2_of op) };

    fn from(op: Op2) -> Kind {
        match op {
            Op2::Add => Kind::Joined(Op::Add),
            Op2::Sub => Kind::Joined(Op::Sub),
            Op2::Mul => Kind::Joined(Op::Mul),
            Op2::Div => Kind::Joined(Op::Div),
            Op2::Rem => Kind::Joined(Op::Rem),
            Op2::Le => Kind::Related(Relation::Le),
            Op2::Lt => Kind::Related(Relation::Lt),
            Op2::Ne => Kind::Related(Relation::Ne),
            Op2::And => Kind::Related(Relation::And),
            Op2::Or => Kind::Related(Relation::Or),
        }
    }
}

// The answer of an operation on two sets.
fn core2(op: Op2, left: Operand, right: Operand, work: &mut [i64; WORK]) -> Written
    ensures { Left (set2 (op2_of op) (intervals left.entry.set.numbers.now) (intervals right.entry.set.numbers.now))
        (flag2 (op2_of op) false (intervals left.entry.set.numbers.now) (intervals right.entry.set.numbers.now)) work.new result }
{
    match Kind::from(op) {
        Kind::Joined(o) => join(o, left, right, work),
        Kind::Related(o) => put_bools(work, cores::rule::relate(o, left, right)),
    }
}

// A form of one argument; its trouble is the answer.
#[tactic(auto, unfolding(crate::specs::Value::answer1, meaning::specs::Outcome::bind))]
pub fn apply1(op: Op1, a: &Result<FormSet, Cause>, work: &mut [i64; WORK]) -> Result<FormSet, Cause>
    ensures { result_of result ≡ answer1 (op1_of op) (result_of a.now) }
{
    let set = match a {
        Ok(set) => set,
        Err(cause) => return Err(*cause),
    };
    let answer = core1(op, set.ends(), work);
    settle(work, answer)
}

// A form of two arguments; trouble in the left one comes first.
#[tactic(auto, unfolding(crate::specs::Value::answer2, meaning::specs::Outcome::bind))]
pub fn apply2(
    op: Op2,
    a: &Result<FormSet, Cause>,
    b: &Result<FormSet, Cause>,
    work: &mut [i64; WORK],
) -> Result<FormSet, Cause>
    ensures { result_of result ≡ answer2 (op2_of op) (result_of a.now) (result_of b.now) }
{
    let left = match a {
        Ok(set) => set,
        Err(cause) => return Err(*cause),
    };
    let right = match b {
        Ok(set) => set,
        Err(cause) => return Err(*cause),
    };
    let answer = core2(op, left.ends(), right.ends(), work);
    settle(work, answer)
}
