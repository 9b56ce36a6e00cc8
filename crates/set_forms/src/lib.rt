// The set of a form straight from its bytes: left argument, right, form.
#![tactic(auto)]

ghost use Rattle.meaning.specs.Outcome.{Res};
ghost use Rattle.meaning.specs.NumberIntervals.{Set};
ghost use Rattle.set_values.specs.Value.{result_of, sets_of, values};

use forms::{Algebra, Op1, Op2};
use interval::Interval;
use limits::WORK;
use refusals::Cause;
use set_values::{FormSet, Registers, apply1, apply2};

// What forms come to on the registers' sets, worked in a lent slice.
#[derive(Drop)]
pub struct Sets<'a> {
    pub registers: &'a Registers,
    pub work: &'a mut [i64; WORK],
}

impl Algebra for Sets<'_> {
    type Value = Result<FormSet, Cause>;

    ghost Meaning = { Res Set };

    ghost meaning = { result_of };

    ghost algebra = { λ s. values (sets_of s.registers.now) };

    // A literal beyond MIN..MAX, which no line of a sheet has, counts as 0.
    #[tactic(auto, using(literals::proofs::Literals::kept_is))]
    fn literal(&mut self, z: Option<i64>) -> Result<FormSet, Cause> {
        let only = z.unwrap_or(0);
        Ok(FormSet::from(Interval { lo: only, hi: only }))
    }

    fn register(&mut self, r: usize) -> Result<FormSet, Cause> {
        Ok(self.registers.set(r))
    }

    fn one(&mut self, op: Op1, a: Result<FormSet, Cause>) -> Result<FormSet, Cause> {
        self.one_lent(op, &a)
    }

    fn two(
        &mut self,
        op: Op2,
        a: Result<FormSet, Cause>,
        b: Result<FormSet, Cause>,
    ) -> Result<FormSet, Cause> {
        self.two_lent(op, &a, &b)
    }

    fn one_lent(&mut self, op: Op1, a: &Result<FormSet, Cause>) -> Result<FormSet, Cause> {
        apply1(op, a, self.work)
    }

    // The left argument's trouble comes first.
    fn two_lent(
        &mut self,
        op: Op2,
        a: &Result<FormSet, Cause>,
        b: &Result<FormSet, Cause>,
    ) -> Result<FormSet, Cause> {
        apply2(op, a, b, self.work)
    }
}
