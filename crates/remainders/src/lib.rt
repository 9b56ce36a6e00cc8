// rem of a pair of intervals, before any joining: the first of six rules that fits. Special are 0 and MIN in the dividend, and 0, -1 and MIN in the divisor,
// which are cut out.
// Kept: `out`, `left` and `right` apart, since a struct of them would be made for one call and taken apart in it.
#![tactic(auto)]

ghost use Rattle.std.specs.Prelude.{◌≡◌, true, ◌≤◌, ◌+◌, length, negsuc};
ghost use Rattle.meaning.specs.Number.{MIN, within};
ghost use Rattle.meaning.specs.Interval.{cut_left, cut_right, rule_b, rem_with, rem_pair};
ghost use Rattle.slices.specs.Adds.{Holds, Adds};

use interval::Interval;
use interval::divisor::Divisor;
use number::MIN;
use rem_rules::{put_against, put_remainders, put_under};
use slices::put_one;
use writer::Writer;

// left without c by right.
// Kept: this and `cut_right` differ in the side that is cut, so one function of both would take a branch for each line here.
#[cycle(cutting)]
fn cut_left(out: &mut Writer<i64>, n: usize, c: i64, left: Interval, right: Interval)
    requires inside { within left.lo c left.hi ≡ true }
    requires room { Holds (cut_left (rem_with n) c left.lo left.hi right.lo right.hi) out.old }
    ensures { Adds (cut_left (rem_with n) c left.lo left.hi right.lo right.hi) out.new out.old }
{
    if let Some(rest) = left.below(c) {
        rem_with(out, n, rest, right);
    }
    if let Some(rest) = left.above(c) {
        rem_with(out, n, rest, right);
    }
}

// left by right without c.
#[cycle(cutting)]
fn cut_right(out: &mut Writer<i64>, n: usize, c: i64, left: Interval, right: Interval)
    requires inside { within right.lo c right.hi ≡ true }
    requires room { Holds (cut_right (rem_with n) c left.lo left.hi right.lo right.hi) out.old }
    ensures { Adds (cut_right (rem_with n) c left.lo left.hi right.lo right.hi) out.new out.old }
{
    if let Some(rest) = right.below(c) {
        rem_with(out, n, left, rest);
    }
    if let Some(rest) = right.above(c) {
        rem_with(out, n, left, rest);
    }
}

// left without MIN by right, left by right without -1, and MIN by -1, which is 0.
#[cycle(cutting)]
fn cut_both(out: &mut Writer<i64>, n: usize, left: Interval, right: Interval)
    requires left_has_min { within left.lo MIN left.hi ≡ true }
    requires right_has_minus_one { within right.lo (negsuc 0) right.hi ≡ true }
    requires room { Holds (rule_b (rem_with n) left.lo left.hi right.lo right.hi) out.old }
    ensures { Adds (rule_b (rem_with n) left.lo left.hi right.lo right.hi) out.new out.old }
{
    cut_left(out, n, MIN, left, right);
    cut_right(out, n, -1, left, right);
    put_one(out, 0, 0);
}

// The first rule that fits; n falls at each self-call.
// Kept: a number that falls is the project's form of a recursion; each turn loses one of five tests, 0, -1 and MIN in right and 0 and MIN in left, and gains
// none, so six turns are enough.
#[cycle(cutting)]
fn rem_with(out: &mut Writer<i64>, n: usize, left: Interval, right: Interval)
    requires { Holds (rem_with n left.lo left.hi right.lo right.hi) out.old }
    ensures { Adds (rem_with n left.lo left.hi right.lo right.hi) out.new out.old }
{
    if n == 0 {
        return;
    }
    let m = n - 1;
    if right.contains(0) {
        cut_right(out, m, 0, left, right);
    } else if left.quotient_wraps(right) {
        cut_both(out, m, left, right);
    } else if left.contains(0) {
        cut_left(out, m, 0, left, right);
        put_one(out, 0, 0);
    } else if right.contains(MIN) {
        cut_right(out, m, MIN, left, right);
        put_against(out, left.lo, left.hi);
    } else if left.contains(MIN) {
        cut_left(out, m, MIN, left, right);
        put_under(out, Divisor { numbers: right });
    } else {
        put_remainders(out, left.lo, left.hi, Divisor { numbers: right });
    }
}

// The remainders of left by right.
pub fn rem_pair(out: &mut Writer<i64>, left: Interval, right: Interval)
    requires { out.old.len + 32 ≤ length out.old.room.now }
    ensures { Adds (rem_pair left.lo left.hi right.lo right.hi) out.new out.old }
{
    rem_with(out, 6, left, right);
}
