// mul of a pair of intervals, written behind what a writer has already, before any joining. The least and the greatest corner are taken exactly, spread over
// the range, and divided by 1000. Special are narrow intervals, whose products are in range, so that one word is enough for them, and the ends where the range
// is split or whole: they are those of the range of products, and are not divided.
// Kept: `out`, `left` and `right` apart, since a struct of them would be made for one call and taken apart in it.
#![tactic(auto)]

ghost use Rattle.std.specs.Prelude.{◌≡◌, ◌&&◌, ◌≤◌, ◌+◌, pos, negsuc, length};
ghost use Rattle.std.specs.Int.Signed.{le_z};
ghost use Rattle.meaning.specs.Interval.{mul_pair};
ghost use Rattle.slices.specs.Adds.{Adds};
ghost use Rattle.wide.specs.Range.{range_of};
ghost use Rattle.products.specs.Narrow.{Narrow};
ghost use Rattle.products.specs.Thousandths.{thousandths};

use interval::Interval;
use slices::{put_one, put_two};
use wide::corners::{corners, extremes};
use wide::spread::{Range, spread_of};
use words::milli;
use writer::Writer;

// The range of products: MIN and MAX, divided by 1000.
const LEAST: i64 = -9223372036854775;

const GREATEST: i64 = 9223372036854775;

// The intervals of a range, its wrapped ends divided by 1000; the ends that the rule writes are those of the range of products.
fn put_thousandths(out: &mut Writer<i64>, range: Range)
    requires { out.old.len + 4 ≤ length out.old.room.now }
    ensures { Adds (thousandths (range_of range)) out.new out.old }
{
    match range {
        Range::Whole => put_one(out, LEAST, GREATEST),
        Range::One(u, v) => put_one(out, milli(u), milli(v)),
        Range::Two(u, v) => put_two(out, milli(u), GREATEST, LEAST, milli(v)),
    }
}

// left times right, of any length.
fn mul_wide(out: &mut Writer<i64>, left: Interval, right: Interval)
    requires { out.old.len + 4 ≤ length out.old.room.now }
    ensures { Adds (mul_pair left.lo left.hi right.lo right.hi) out.new out.old }
{
    let (least, greatest) = corners(left.lo, left.hi, right.lo, right.hi);
    put_thousandths(out, spread_of(least, greatest));
}

// left times right, both narrow.
// Kept: the four corners are written out, as at `wide::corners::corners`.
fn mul_narrow(out: &mut Writer<i64>, left: Interval, right: Interval)
    requires first_narrow { Narrow left.lo left.hi }
    requires second_narrow { Narrow right.lo right.hi }
    requires room { out.old.len + 4 ≤ length out.old.room.now }
    ensures { Adds (mul_pair left.lo left.hi right.lo right.hi) out.new out.old }
{
    let a = left.lo * right.lo;
    let b = left.lo * right.hi;
    let c = left.hi * right.lo;
    let d = left.hi * right.hi;
    let (least, greatest) = extremes(a, b, c, d);
    put_one(out, milli(least), milli(greatest));
}

// Whether an interval is narrow: its ends are at most 2^31 from 0.
fn narrow(numbers: Interval) -> bool
    ensures { result ≡ (le_z (negsuc 2147483647) numbers.lo && le_z numbers.hi (pos 2147483648)) }
{
    -2147483648 <= numbers.lo && numbers.hi <= 2147483648
}

// left times right.
pub fn mul_pair(out: &mut Writer<i64>, left: Interval, right: Interval)
    requires { out.old.len + 4 ≤ length out.old.room.now }
    ensures { Adds (mul_pair left.lo left.hi right.lo right.hi) out.new out.old }
{
    if narrow(left) && narrow(right) {
        mul_narrow(out, left, right);
    } else {
        mul_wide(out, left, right);
    }
}
