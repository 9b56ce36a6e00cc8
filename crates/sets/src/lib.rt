// Sets as slices of ends: the start and the end of each interval, in order. A normal set is sorted, without overlap, and at least one number is missing
// between neighbours. Only `is_normal` and `contains` take any slice.
#![tactic(auto)]

ghost use Rattle.std.proofs.Props.{props};
ghost use Rattle.std.specs.Prelude.{◌≡◌, true, ◌+◌, ◌≤◌, length, slice_index_or, pos};
ghost use Rattle.meaning.specs.Number.{within};
ghost use Rattle.meaning.specs.Interval.{meet_pair};
ghost use Rattle.meaning.specs.NumberIntervals.{contains as is_in, Normal, normal, intervals, intersect};
ghost use Rattle.slices.specs.Adds.{Adds, Holds};
ghost use Rattle.sets.specs.OneWay.{Normal-prop};
ghost use Rattle.sets.specs.Sets.{SetEnds, Pairs, Rebuilt, United};

use slices::put_one;
use sorting::{apart, join_pass, merge_in, sort_within};
use writer::Writer;

// The ends of a normal set.
// Kept: no method for the pairs: of those who hold it two walk by pairs, and the others hand on the numbers or count them.
#[derive(Clone, Copy, Debug)]
pub struct Ends<'a> {
    pub numbers: &'a [i64],
    ghost set: { SetEnds numbers.now } by { Prim.hlevel (props, Normal-prop) },
}

// The ends of a normal set of at most 16 intervals, as the set calls take it.
#[derive(Clone, Copy, Debug)]
pub struct Operand<'a> {
    pub set: Ends<'a>,
    ghost few: { length set.numbers.now ≤ 32 },
}

// Sorted, no overlap, at least one number missing between neighbours; an odd length is not normal.
pub fn is_normal(s: &[i64]) -> bool
    ensures value { result ≡ normal s.now }
    ensures normal { (result ≡ true → Normal (intervals s.now)) }
{
    let mut ends = s;
    while let &[a, b, c, ..] = ends {
        if !(a <= b && apart(b, c)) {
            return false;
        }
        ends = &ends[2..];
    }
    match *ends {
        [] => true,
        [a, b] => a <= b,
        _ => false,
    }
}

// The interval holds x.
// Kept: a function, since `contains` with the test in a closure was tried, and its proof did not close.
#[tactic(auto, unfolding(meaning::specs::Number::within))]
fn holds(pair: &[i64; 2], x: i64) -> bool
    ensures { result ≡ within (slice_index_or pair.now 0 (pos 0)) x (slice_index_or pair.now 1 (pos 0)) }
{
    pair[0] <= x && x <= pair[1]
}

// x is in one of the intervals.
pub fn contains(s: &[i64], x: i64) -> bool
    ensures { result ≡ is_in x (intervals s.now) }
{
    s.as_chunks::<2>().0.iter().any(|pair| holds(pair, x))
}

// Intervals in any order become the normal set of the same members, at the front of the slice; returns how many numbers that has.
// Kept: it works in place on what stands in the slice, since nothing is on the heap.
pub fn rebuild(ends: &mut [i64]) -> usize
    requires { (length ends.old ≤ 8192) × Pairs ends.old }
    ensures { Rebuilt ends.old ends.new result }
{
    let n = ends.len();
    if n < 4 {
        return n;
    }
    if n <= 64 {
        sort_within::<32>(ends);
    } else if n <= 1024 {
        sort_within::<512>(ends);
    } else {
        sort_within::<4096>(ends);
    }
    join_pass(ends)
}

// What the intervals [s, e] and [c, d] have in common, if it is anything.
fn put_common(out: &mut Writer<i64>, s: i64, e: i64, c: i64, d: i64)
    requires { Holds (meet_pair s e c d) out.old }
    ensures { Adds (meet_pair s e c d) out.new out.old }
{
    let lo = s.max(c);
    let hi = e.min(d);
    if lo <= hi {
        put_one(out, lo, hi);
    }
}

// What two normal sets have in common, by one walk over both: the interval that ends first is left behind.
pub fn meet(out: &mut Writer<i64>, left: Ends, right: Ends)
    requires { out.old.len + (length left.numbers.now + length right.numbers.now) ≤ length out.old.room.now }
    ensures { Adds (intersect (intervals left.entry.numbers.now) (intervals right.entry.numbers.now)) out.new out.old }
{
    let mut lefts = left.numbers;
    let mut rights = right.numbers;
    while let ([s, e, left_rest @ ..], [c, d, right_rest @ ..]) = (lefts, rights) {
        put_common(out, *s, *e, *c, *d);
        if *e <= *d {
            lefts = left_rest;
        } else {
            rights = right_rest;
        }
    }
}

// The union of two normal sets at the front of work, by one merge and one joining pass.
// Kept: it works in place, as `rebuild` does, since nothing is on the heap.
pub fn unite(work: &mut [i64], left: Ends, right: Ends) -> usize
    requires { length left.numbers.now + length right.numbers.now ≤ length work.old }
    ensures { United left.entry.numbers.now right.entry.numbers.now work.old work.new result }
{
    let n = left.numbers.len();
    let k = n + right.numbers.len();
    if k < 2 {
        return 0;
    }
    work[n..k].copy_from_slice(right.numbers);
    let ends = &mut work[..k];
    merge_in(ends, left.numbers);
    join_pass(ends)
}
