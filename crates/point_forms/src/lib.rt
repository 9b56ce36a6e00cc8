// The value of a form in a run: point values straight from the bytes, with no tree between.
#![tactic(auto)]

ghost use Rattle.std.specs.Prelude.{◌≡◌, ℤ};
ghost use Rattle.meaning.specs.Outcome.{Res};
ghost use Rattle.meaning.specs.Number.{point1, point2};
ghost use Rattle.forms.specs.Answer.{op1_of, op2_of};
ghost use Rattle.point_forms.specs.Answer.{res_of, points};

use forms::{Algebra, Op1, Op2};
use limits::REGISTERS;
use refusals::Cause;

// An operation of one argument on a number.
// Kept: here and below a row for each operation, since it is a value read from a text, and each row is one call of its own.
#[tactic(auto, unfolding(meaning::specs::Number::point1))]
fn unary(op: Op1, x: i64) -> i64
    ensures { result ≡ point1 (op1_of op) x }
{
    match op {
        Op1::Neg => number::neg(x),
        Op1::Abs => number::abs(x),
        Op1::Not => number::not(x),
    }
}

// An operation of two arguments on numbers; a divisor 0 has no result.
#[tactic(auto, unfolding(meaning::specs::Number::point2))]
fn binary(op: Op2, x: i64, y: i64) -> Option<i64>
    ensures { result ≡ point2 (op2_of op) x y }
{
    match op {
        Op2::Add => Some(number::add(x, y)),
        Op2::Sub => Some(number::sub(x, y)),
        Op2::Mul => Some(number::mul(x, y)),
        Op2::Div => number::div(x, y),
        Op2::Rem => number::rem(x, y),
        Op2::Le => Some(number::le(x, y)),
        Op2::Lt => Some(number::lt(x, y)),
        Op2::Ne => Some(number::ne(x, y)),
        Op2::And => Some(number::and(x, y)),
        Op2::Or => Some(number::or(x, y)),
    }
}

// What forms come to where the registers hold these numbers.
#[derive(Clone, Copy)]
pub struct Values<'a> {
    pub state: &'a [i64; REGISTERS],
}

impl Algebra for Values<'_> {
    type Value = Result<i64, Cause>;

    ghost Meaning = { Res ℤ };

    ghost meaning = { res_of };

    ghost algebra = { λ p. points p.state.now };

    // A literal beyond MIN..MAX, which no line of a sheet has, counts as 0.
    #[tactic(auto, using(literals::proofs::Literals::kept_is))]
    fn literal(&mut self, z: Option<i64>) -> Result<i64, Cause> {
        Ok(z.unwrap_or(0))
    }

    fn register(&mut self, r: usize) -> Result<i64, Cause> {
        Ok(self.state[r])
    }

    fn one(&mut self, op: Op1, a: Result<i64, Cause>) -> Result<i64, Cause> {
        self.one_lent(op, &a)
    }

    fn two(&mut self, op: Op2, a: Result<i64, Cause>, b: Result<i64, Cause>) -> Result<i64, Cause> {
        self.two_lent(op, &a, &b)
    }

    #[tactic(auto, unfolding(crate::specs::Answer::with1, meaning::specs::Outcome::bind))]
    fn one_lent(&mut self, op: Op1, a: &Result<i64, Cause>) -> Result<i64, Cause> {
        Ok(unary(op, (*a)?))
    }

    // The left argument's trouble comes first.
    #[tactic(auto, unfolding(crate::specs::Answer::with2, meaning::specs::Outcome::bind))]
    fn two_lent(
        &mut self,
        op: Op2,
        a: &Result<i64, Cause>,
        b: &Result<i64, Cause>,
    ) -> Result<i64, Cause> {
        binary(op, (*a)?, (*b)?).ok_or(Cause::ZeroDivisor)
    }
}
