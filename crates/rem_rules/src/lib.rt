// Three of the rules of rem: an interval by MIN, MIN by a divisor, and an interval without MIN by a divisor, whose remainders are those of the magnitudes.
// Special are MIN, whose magnitude no i64 has, and the dividend that is MIN alone.
#![tactic(auto)]

ghost use Rattle.std.specs.Prelude.{◌≡◌, ◌^◌, ◌≤◌, ◌<◌, ◌+◌, length, pos, ◌-ℤ◌};
ghost use Rattle.meaning.specs.Interval.{span, against, least_magnitude, greatest_magnitude, signed_span, rem_magnitudes, rule_f};
ghost use Rattle.slices.specs.Adds.{Holds, Adds};

use interval::divisor::Divisor;
use number::MIN;
use slices::put_one;
use writer::Writer;

// The remainders of [s,e] by MIN: [s,e] itself, or 0 if it is MIN alone, or [MIN,0] if it holds MIN and more.
// Kept: two ends in place of an interval, since an interval asks that they be in order, and a public call may not ask more.
pub fn put_against(out: &mut Writer<i64>, s: i64, e: i64)
    requires { out.old.len + 2 ≤ length out.old.room.now }
    ensures { Adds (against s e) out.new out.old }
{
    if s == MIN {
        if MIN < e {
            put_one(out, MIN, 0);
        } else {
            put_one(out, 0, 0);
        }
    } else {
        put_one(out, s, e);
    }
}

// The magnitudes from the least to the greatest.
#[derive(Clone, Copy, Debug, PartialEq, Eq)]
struct Magnitudes {
    least: u64,
    greatest: u64,
    ghost ordered: { least ≤ greatest },
}

// The magnitudes of the ends s and e.
fn magnitudes_of(s: i64, e: i64) -> Magnitudes
    ensures { (result.least ≡ least_magnitude s e) × (result.greatest ≡ greatest_magnitude s e) }
{
    let a = s.unsigned_abs();
    let b = e.unsigned_abs();
    Magnitudes {
        least: a.min(b),
        greatest: a.max(b),
    }
}

// The remainders of MIN by right: [1-d,0], where d is the greatest magnitude in right.
pub fn put_under(out: &mut Writer<i64>, right: Divisor)
    requires { out.old.len + 2 ≤ length out.old.room.now }
    ensures { Adds (span (pos 1 -ℤ pos (greatest_magnitude right.numbers.lo right.numbers.hi)) (pos 0)) out.new out.old }
{
    let d = magnitudes_of(right.numbers.lo, right.numbers.hi).greatest;
    put_one(out, -((d - 1) as i64), 0);
}

// The magnitudes from l to h, negated if the dividend is negative.
fn put_signed(out: &mut Writer<i64>, negated: bool, l: u64, h: u64)
    requires low_fits { l < 2 ^ 63 }
    requires high_fits { h < 2 ^ 63 }
    requires room { out.old.len + 2 ≤ length out.old.room.now }
    ensures { Adds (signed_span negated l h) out.new out.old }
{
    if negated {
        put_one(out, -(h as i64), -(l as i64));
    } else {
        put_one(out, l as i64, h as i64);
    }
}

// The remainders of the magnitudes left by the magnitudes right.
#[tactic(auto, using(crate::proofs::MagnitudeRules::magnitudes_two))]
fn put_magnitudes(out: &mut Writer<i64>, negated: bool, left: Magnitudes, right: Magnitudes)
    requires second_positive { 0 < right.least }
    requires second_fits { right.greatest ≤ 2 ^ 63 }
    requires room { Holds (rem_magnitudes negated left.least left.greatest right.least right.greatest) out.old }
    ensures { Adds (rem_magnitudes negated left.least left.greatest right.least right.greatest) out.new out.old }
{
    let a = left.least;
    let b = left.greatest;
    let c = right.least;
    let d = right.greatest;
    if d <= b - a {
        return put_signed(out, negated, 0, d - 1);
    }
    // Kept: two tests in place of one with `||`, no plainer, since each is a case of the definition.
    if c < d {
        return put_signed(out, negated, 0, d - 1);
    }
    let m = b / c * c;
    if m < a {
        return put_signed(out, negated, a % c, b % c);
    }
    put_signed(out, negated, 0, b % c);
    if a < m {
        put_signed(out, negated, a % c, c - 1);
    }
}

// The remainders of [s,e], without MIN and on one side of 0, by right.
// Kept: two ends in place of an interval, since an interval asks that they be in order, and a public call may not ask more.
pub fn put_remainders(out: &mut Writer<i64>, s: i64, e: i64, right: Divisor)
    requires { Holds (rule_f s e right.numbers.lo right.numbers.hi) out.old }
    ensures { Adds (rule_f s e right.numbers.lo right.numbers.hi) out.new out.old }
{
    let negated = s < 0;
    let l = magnitudes_of(s, e);
    let r = magnitudes_of(right.numbers.lo, right.numbers.hi);
    put_magnitudes(out, negated, l, r);
}
