// The parts of an interval that 0 is not in.
ghost use Rattle.std.specs.Prelude.{◌≡◌, true, cond, [], pos, negsuc};
ghost use Rattle.std.proofs.Math.IntN.{pred_ℤ};
ghost use Rattle.std.specs.Int.Signed.{lt_z};
ghost use Rattle.meaning.specs.Number.{within};
ghost use Rattle.meaning.specs.Interval.{span};
ghost use Rattle.interval.specs.Part.{divisor_spans};

use crate::Interval;
use crate::divisor::Divisor;

impl Interval {
    // The negative numbers of the interval, which 0 is in.
    pub fn negatives(self) -> Option<Divisor>
        requires { within self.lo (pos 0) self.hi ≡ true }
        ensures { divisor_spans result ≡ cond (lt_z self.lo (pos 0)) (span self.lo (negsuc 0)) [] }
    {
        let numbers = self.below(0)?;
        Some(Divisor { numbers })
    }

    // The positive numbers of the interval, which 0 is in.
    pub fn positives(self) -> Option<Divisor>
        requires { within self.lo (pos 0) self.hi ≡ true }
        ensures { divisor_spans result ≡ cond (lt_z (pos 0) self.hi) (span (pos 1) self.hi) [] }
    {
        let numbers = self.above(0)?;
        Some(Divisor { numbers })
    }
}

impl Divisor {
    // The part below c, which is in the divisor.
    pub fn below(self, c: i64) -> Option<Divisor>
        requires { within self.numbers.lo c self.numbers.hi ≡ true }
        ensures { divisor_spans result ≡ cond (lt_z self.numbers.lo c) (span self.numbers.lo (pred_ℤ c)) [] }
    {
        let numbers = self.numbers.below(c)?;
        Some(Divisor { numbers })
    }
}
