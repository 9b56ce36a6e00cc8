// Numbers in an interval, and its parts on either side of one.
ghost use Rattle.std.specs.Prelude.{◌≡◌, true, cond, [], ◌&&◌, negsuc};
ghost use Rattle.std.proofs.Math.IntN.{suc_ℤ, pred_ℤ};
ghost use Rattle.std.specs.Int.Signed.{lt_z};
ghost use Rattle.meaning.specs.Number.{MIN, within};
ghost use Rattle.meaning.specs.Interval.{span};
ghost use Rattle.interval.specs.Part.{spans};

use crate::Interval;
use number::MIN;

impl Interval {
    // Whether x is in the interval.
    #[tactic(auto, unfolding(meaning::specs::Number::within))]
    pub fn contains(self, x: i64) -> bool
        ensures { result ≡ within self.lo x self.hi }
    {
        self.lo <= x && x <= self.hi
    }

    // The part below c, which is in the interval.
    // Kept: that c is inside stands in the contract, here and wherever one is cut out, since it tells of two values at once.
    pub fn below(self, c: i64) -> Option<Interval>
        requires { within self.lo c self.hi ≡ true }
        ensures { spans result ≡ cond (lt_z self.lo c) (span self.lo (pred_ℤ c)) [] }
    {
        if self.lo < c {
            Some(Interval {
                lo: self.lo,
                hi: c - 1,
            })
        } else {
            None
        }
    }

    // The part above c, which is in the interval.
    pub fn above(self, c: i64) -> Option<Interval>
        requires { within self.lo c self.hi ≡ true }
        ensures { spans result ≡ cond (lt_z c self.hi) (span (suc_ℤ c) self.hi) [] }
    {
        if c < self.hi {
            Some(Interval {
                lo: c + 1,
                hi: self.hi,
            })
        } else {
            None
        }
    }

    // Whether MIN is in the interval and -1 in right, so that their quotient wraps.
    #[tactic(auto, unfolding(meaning::specs::Number::within))]
    pub fn quotient_wraps(self, right: Interval) -> bool
        ensures { result ≡ (within self.lo MIN self.hi && within right.lo (negsuc 0) right.hi) }
    {
        self.contains(MIN) && right.contains(-1)
    }
}
