// The wrapped values of all the numbers between two exact ones.
ghost use Rattle.std.specs.Prelude.{◌≡◌, ◌≤ℤ◌};
ghost use Rattle.meaning.specs.Interval.{far, spread};
ghost use Rattle.wide.specs.Exact.{number_of};
ghost use Rattle.wide.specs.Range.{range_of};

use crate::product::Wide;
use crate::word::unword;
use words::SIGN;

// One or two intervals of i64: [MIN,MAX]; [u,v]; [u,MAX] and [MIN,v].
// Kept: three shapes of a range, none of them an absent one; the two ends of `Two` are those of two intervals, so no Interval holds them.
#[derive(Clone, Copy, Debug, PartialEq, Eq)]
pub enum Range {
    Whole,
    One(i64, i64),
    Two(i64, i64),
}

// The upper word of the exact numbers in window 0.
const MIDDLE: u64 = SIGN;

// Whether q - p is 2^64 - 1 or more.
fn far_apart(p: Wide, q: Wide) -> bool
    ensures { result ≡ far (number_of p) (number_of q) }
{
    match q.hi.checked_sub(p.hi) {
        None => false,
        Some(0) => p.lo == 0 && q.lo == u64::MAX,
        Some(1) => p.lo.saturating_sub(q.lo) <= 1,
        Some(_) => true,
    }
}

// The spread of p and q, where p is at most q: in neighbouring windows the upper word of p alone tells windows 0 and 1.
pub fn spread_of(p: Wide, q: Wide) -> Range
    requires { number_of p ≤ℤ number_of q }
    ensures { range_of result ≡ spread (number_of p) (number_of q) }
{
    if far_apart(p, q) {
        return Range::Whole;
    }
    let u = unword(p.lo);
    let v = unword(q.lo);
    if p.hi == q.hi {
        Range::One(u, v)
    } else if p.hi == MIDDLE {
        Range::Two(v, u)
    } else {
        Range::Two(u, v)
    }
}
