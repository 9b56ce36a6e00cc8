// add and sub of a pair of intervals. The exact ends are as far apart as the two intervals are long together.
ghost use Rattle.std.specs.Prelude.{◌≡◌, cond, ◌≤◌, ◌+◌, length, ◌+ℤ◌};
ghost use Rattle.std.specs.Int.Signed.{le_z};
ghost use Rattle.meaning.specs.Interval.{whole, one, two, pieces, unscaled, far, add_pair, sub_pair};
ghost use Rattle.slices.specs.Adds.{Adds};

use crate::Interval;
use number::{MAX, MIN, add, sub};
use slices::{put_one, put_two};
use words::distance;
use writer::Writer;

// Whether the two are 2^64 - 1 or more long together.
fn reach_all(left: Interval, right: Interval) -> bool
    ensures { result ≡ far (left.lo +ℤ right.lo) (left.hi +ℤ right.hi) }
{
    u64::MAX - distance(left.lo, left.hi) <= distance(right.lo, right.hi)
}

// The wrapped ends u and v, split at the end of the range where they are out of order; [MIN,MAX] where the two reach all numbers.
fn put_split(out: &mut Writer<i64>, left: Interval, right: Interval, u: i64, v: i64)
    requires { out.old.len + 4 ≤ length out.old.room.now }
    ensures { Adds (pieces unscaled (cond (far (left.lo +ℤ right.lo) (left.hi +ℤ right.hi)) whole
        (cond (le_z u v) (one u v) (two u v)))) out.new out.old }
{
    if reach_all(left, right) {
        put_one(out, MIN, MAX);
    } else if u <= v {
        put_one(out, u, v);
    } else {
        put_two(out, u, MAX, MIN, v);
    }
}

// The sums of the two.
// Kept: this and `sub_pair` differ in which ends meet, and what they share is `put_split`.
pub fn add_pair(out: &mut Writer<i64>, left: Interval, right: Interval)
    requires { out.old.len + 4 ≤ length out.old.room.now }
    ensures { Adds (add_pair left.lo left.hi right.lo right.hi) out.new out.old }
{
    let u = add(left.lo, right.lo);
    let v = add(left.hi, right.hi);
    put_split(out, left, right, u, v);
}

// The differences of left and right.
pub fn sub_pair(out: &mut Writer<i64>, left: Interval, right: Interval)
    requires { out.old.len + 4 ≤ length out.old.room.now }
    ensures { Adds (sub_pair left.lo left.hi right.lo right.hi) out.new out.old }
{
    let u = sub(left.lo, right.hi);
    let v = sub(left.hi, right.lo);
    put_split(out, left, right, u, v);
}
