// The quotients of two intervals of thousandths: 0 is cut out of the divisor, and each spread piece of 1000 times the dividend is divided.
ghost use Rattle.std.specs.Prelude.{◌≡◌, ◌≤◌, ◌+◌, ◌*ℤ◌, length};
ghost use Rattle.meaning.specs.Number as point;
ghost use Rattle.meaning.specs.Interval.{spread, div_piece, div_part, div_pair};
ghost use Rattle.slices.specs.Adds.{Holds, Adds};
ghost use Rattle.wide.specs.Range.{range_of};

use crate::quotient::put_plain;
use interval::Interval;
use interval::divisor::Divisor;
use number::{MAX, MIN, ONE};
use slices::put_one;
use wide::exact::exact;
use wide::spread::{Range, spread_of};
use writer::Writer;

// The spread of 1000 times left.
fn thousands(left: Interval) -> Range
    ensures { range_of result ≡ spread (point.ONE *ℤ left.lo) (point.ONE *ℤ left.hi) }
{
    spread_of(exact(ONE, left.lo), exact(ONE, left.hi))
}

// One spread piece D, here left, by right.
fn div_piece(out: &mut Writer<i64>, left: Interval, right: Divisor)
    requires { Holds (div_piece left.lo left.hi right.numbers.lo right.numbers.hi) out.old }
    ensures { Adds (div_piece left.lo left.hi right.numbers.lo right.numbers.hi) out.new out.old }
{
    if left.quotient_wraps(right.numbers) {
        put_one(out, MIN, MIN);
        if let Some(rest) = left.above(MIN) {
            put_plain(out, rest, right);
        }
        if let Some(rest) = right.below(-1) {
            put_plain(out, left, rest);
        }
    } else {
        put_plain(out, left, right);
    }
}

// left by a part of the divisor.
fn div_part(out: &mut Writer<i64>, left: Interval, right: Divisor)
    requires { Holds (div_part left.lo left.hi right.numbers.lo right.numbers.hi) out.old }
    ensures { Adds (div_part left.lo left.hi right.numbers.lo right.numbers.hi) out.new out.old }
{
    match thousands(left) {
        Range::Whole => put_one(out, MIN, MAX),
        Range::One(u, v) => div_piece(out, Interval { lo: u, hi: v }, right),
        Range::Two(u, v) => {
            div_piece(out, Interval { lo: u, hi: MAX }, right);
            div_piece(out, Interval { lo: MIN, hi: v }, right);
        }
    }
}

// The quotients of left by right.
pub fn div_pair(out: &mut Writer<i64>, left: Interval, right: Interval)
    requires { out.old.len + 24 ≤ length out.old.room.now }
    ensures { Adds (div_pair left.lo left.hi right.lo right.hi) out.new out.old }
{
    if right.contains(0) {
        if let Some(negatives) = right.negatives() {
            div_part(out, left, negatives);
        }
        if let Some(positives) = right.positives() {
            div_part(out, left, positives);
        }
    } else {
        div_part(out, left, Divisor { numbers: right });
    }
}
