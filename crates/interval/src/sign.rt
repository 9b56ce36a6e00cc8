// neg and abs of one interval.
ghost use Rattle.std.specs.Prelude.{◌≡◌, ◌≤◌, ◌+◌, length, ◌<ℤ◌};
ghost use Rattle.meaning.specs.Number as point;
ghost use Rattle.meaning.specs.Interval.{span, neg_pair, abs_rest, abs_pair};
ghost use Rattle.slices.specs.Adds.{Adds};

use crate::Interval;
use number::{MAX, MIN};
use slices::{put_one, put_two};
use writer::Writer;

// [-e,-s] of [s,e]; MIN stays, and the rest of [MIN,e] becomes [-e,MAX].
pub fn neg_pair(out: &mut Writer<i64>, left: Interval)
    requires { out.old.len + 4 ≤ length out.old.room.now }
    ensures { Adds (neg_pair left.lo left.hi) out.new out.old }
{
    if left.lo > MIN {
        put_one(out, -left.hi, -left.lo);
    } else if left.hi > MIN {
        put_two(out, -left.hi, MAX, MIN, MIN);
    } else {
        put_one(out, MIN, MIN);
    }
}

// The magnitudes of an interval that MIN is not in.
fn magnitudes(left: Interval) -> Interval
    requires { point.MIN <ℤ left.lo }
    ensures { span result.lo result.hi ≡ abs_rest left.lo left.hi }
{
    if 0 <= left.lo {
        left
    } else if left.hi <= 0 {
        Interval {
            lo: -left.hi,
            hi: -left.lo,
        }
    } else {
        Interval {
            lo: 0,
            hi: left.hi.max(-left.lo),
        }
    }
}

// The magnitudes of an interval; MIN stays, and the rest of [MIN,e] goes on from -MAX.
pub fn abs_pair(out: &mut Writer<i64>, left: Interval)
    requires { out.old.len + 4 ≤ length out.old.room.now }
    ensures { Adds (abs_pair left.lo left.hi) out.new out.old }
{
    if left.lo > MIN {
        let m = magnitudes(left);
        put_one(out, m.lo, m.hi);
    } else if let Some(rest) = left.above(MIN) {
        let m = magnitudes(rest);
        put_two(out, MIN, MIN, m.lo, m.hi);
    } else {
        put_one(out, MIN, MIN);
    }
}
