// The exact product of two i64, with 2^127 + 2^63 added.
ghost use Rattle.std.specs.Prelude.{◌≡◌, ◌+◌, ◌/◌, ◌%◌, ◌^◌, ◌≤◌, ◌*ℤ◌};
ghost use Rattle.wide.specs.Exact.{number_of};

use crate::product::{Wide, full};
use words::SIGN;

// m above the middle, 2^127 + 2^63.
fn above(m: Wide) -> Wide
    requires { m.hi ≤ 2 ^ 62 }
    ensures { (result.hi ≡ m.hi + 2 ^ 63 + (m.lo + 2 ^ 63) / 2 ^ 64) × (result.lo ≡ (m.lo + 2 ^ 63) % 2 ^ 64) }
{
    let (lo, carry) = m.lo.overflowing_add(SIGN);
    Wide {
        hi: m.hi + SIGN + u64::from(carry),
        lo,
    }
}

// m below the middle.
fn below(m: Wide) -> Wide
    requires { m.hi ≤ 2 ^ 62 }
    ensures { (result.hi + m.hi + (result.lo + m.lo) / 2 ^ 64 ≡ 2 ^ 63) × ((result.lo + m.lo) % 2 ^ 64 ≡ 2 ^ 63) }
{
    let (lo, borrow) = SIGN.overflowing_sub(m.lo);
    Wide {
        hi: SIGN - m.hi - u64::from(borrow),
        lo,
    }
}

// x times y, exact.
pub fn exact(x: i64, y: i64) -> Wide
    ensures { number_of result ≡ x *ℤ y }
{
    let m = full(x.unsigned_abs(), y.unsigned_abs());
    if (x < 0) == (y < 0) {
        above(m)
    } else {
        below(m)
    }
}
