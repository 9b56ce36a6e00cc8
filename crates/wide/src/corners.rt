// The least and the greatest of the products of the ends of two intervals.
ghost use Rattle.std.specs.Prelude.{◌≡◌, ◌*ℤ◌};
ghost use Rattle.std.specs.Ordering.{ord_min, ord_max};
ghost use Rattle.meaning.specs.Interval.{least_corner, greatest_corner};
ghost use Rattle.wide.specs.Exact.{number_of};

use crate::exact::exact;
use crate::product::Wide;

// The least and the greatest of four.
// Kept: it takes the four corners and not the operation, since a function of the operation would have to state what each of its four calls gave, and the
// contract of the operation says it where the corners are written out.
pub fn extremes<T: Ord + Copy + Drop>(a: T, b: T, c: T, d: T) -> (T, T)
    ensures least { result.0 ≡ ord_min T.cmp (ord_min T.cmp a b) (ord_min T.cmp c d) }
    ensures greatest { result.1 ≡ ord_max T.cmp (ord_max T.cmp a b) (ord_max T.cmp c d) }
{
    (a.min(b).min(c.min(d)), a.max(b).max(c.max(d)))
}

// The least and the greatest corner of [s,e] and [t,f].
// Kept: four ends in place of two intervals, since intervals ask that ends be in order, and a public call may not ask more.
pub fn corners(s: i64, e: i64, t: i64, f: i64) -> (Wide, Wide)
    ensures least { number_of result.0 ≡ least_corner ◌*ℤ◌ s e t f }
    ensures greatest { number_of result.1 ≡ greatest_corner ◌*ℤ◌ s e t f }
{
    let a = exact(s, t);
    let b = exact(s, f);
    let c = exact(e, t);
    let d = exact(e, f);
    extremes(a, b, c, d)
}
