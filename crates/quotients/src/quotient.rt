// The hull of four corner quotients, for the plain cases of div.
ghost use Rattle.std.specs.Prelude.{◌≤◌, ◌+◌, ◌≢◌, length, pos};
ghost use Rattle.slices.specs.Adds.{Holds, Adds};
ghost use Rattle.quotients.specs.Hull.{hull};

use interval::Interval;
use interval::divisor::Divisor;
use slices::put_one;
use wide::corners::extremes;
use words::quot;
use writer::Writer;

// [s,e] by [t,f].
// Kept: four ends in place of an interval and a divisor, since those ask that ends be in order, and a public call may not ask more; the four corners are
// written out, as at `wide::corners::corners`.
pub fn put_hull(out: &mut Writer<i64>, s: i64, e: i64, t: i64, f: i64)
    requires start_not_zero { t ≢ pos 0 }
    requires end_not_zero { f ≢ pos 0 }
    requires room { out.old.len + 2 ≤ length out.old.room.now }
    ensures { Adds (hull s e t f) out.new out.old }
{
    let a = quot(s, t);
    let b = quot(s, f);
    let c = quot(e, t);
    let d = quot(e, f);
    let (least, greatest) = extremes(a, b, c, d);
    put_one(out, least, greatest);
}

// left by right.
pub(crate) fn put_plain(out: &mut Writer<i64>, left: Interval, right: Divisor)
    requires { Holds (hull left.lo left.hi right.numbers.lo right.numbers.hi) out.old }
    ensures { Adds (hull left.lo left.hi right.numbers.lo right.numbers.hi) out.new out.old }
{
    put_hull(out, left.lo, left.hi, right.numbers.lo, right.numbers.hi);
}
