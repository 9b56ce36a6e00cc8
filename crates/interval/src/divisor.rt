// An interval to divide by.
ghost use Rattle.std.specs.Prelude.{◌≡◌, false, pos};
ghost use Rattle.meaning.specs.Number.{within};

use crate::Interval;

// An interval that 0 is not in.
#[derive(Clone, Copy, Debug, PartialEq, Eq)]
pub struct Divisor {
    pub numbers: Interval,
    ghost no_zero: { within numbers.lo (pos 0) numbers.hi ≡ false },
}
