// Closing gaps of a set in a slice of ends: while more than `limit` intervals remain, the gap with the fewest missing numbers is closed, the lowest of equals.
// One pass: the front of the slice holds the intervals read so far, closed to the limit. The next interval is one too many; either its own gap is
// closed, or the least gap in front, whose place is known, and only then is the front searched again.
#![tactic(auto)]

ghost use Rattle.std.specs.Prelude.{◌≡◌, true, ◌+◌, ◌%◌, ◌≤◌, length, [], MatchOption, ◌<ℤ◌};
ghost use Rattle.std.proofs.Math.IntN.{suc_ℤ};
ghost use Rattle.meaning.specs.Close.{missing as missing_of};
ghost use Rattle.closing.specs.Gaps.{at_least, Open, Lowest, pushed, Ends, Closed};

use sorting::put_pair;

// How many numbers are missing between e and s.
fn missing(e: i64, s: i64) -> u64
    requires { suc_ℤ e <ℤ s }
    ensures { result ≡ missing_of e s }
{
    words::distance(e, s) - 1
}

// A gap: how many numbers stand before it, behind the first start, and how many are missing in it.
#[derive(Clone, Copy)]
struct Gap {
    at: usize,
    missing: u64,
}

// The lowest gap with the fewest missing numbers. None has fewer than `floor`, so the search ends at the first that has just as many.
fn least_gap(gaps: &[i64], floor: u64) -> Option<Gap>
    requires { (length gaps.now % 2 ≡ 0) × Open gaps.now × (at_least floor gaps.now ≡ true) }
    ensures { MatchOption result (gaps.now ≡ []) (λ g. Lowest gaps.now g.at g.missing) }
{
    let mut least: Option<Gap> = None;
    for (i, &[e, s]) in gaps.as_chunks::<2>().0.iter().enumerate() {
        let gap = Gap {
            at: 2 * i,
            missing: missing(e, s),
        };
        if gap.missing == floor {
            return Some(gap);
        }
        if least.is_none_or(|least| gap.missing < least.missing) {
            least = Some(gap);
        }
    }
    least
}

// The gap at `at` is closed, and the interval [s, e] stands behind the rest.
fn push(front: &mut [i64], at: usize, s: i64, e: i64)
    requires { at + 3 ≤ length front.old }
    ensures { front.new ≡ pushed at s e front.old }
{
    let m = front.len();
    front.copy_within(at + 3.., at + 1);
    put_pair(front, m - 2, s, e);
}

// The ends of a normal set are closed to the limit; returns how many numbers that leaves, at the front. What stands behind them is left open.
// Kept: it works in place on what stands in the slice, since nothing is on the heap.
pub fn close(ends: &mut [i64], limit: usize) -> usize
    requires { (1 ≤ limit) × Ends ends.old }
    ensures { Closed limit ends.old ends.new result }
{
    let n = ends.len();
    if n / 2 <= limit {
        return n;
    }
    let m = 2 * limit;
    let (front, rest) = ends.split_at_mut(m);
    let mut gap = least_gap(&front[1..m - 1], 0);
    for &[s, e] in rest.as_chunks::<2>().0 {
        match gap {
            Some(least) if least.missing <= missing(front[m - 1], s) => {
                push(front, least.at, s, e);
                gap = least_gap(&front[1..m - 1], least.missing);
            }
            _ => front[m - 1] = e,
        }
    }
    m
}
