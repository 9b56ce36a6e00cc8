// Closest permitted setpoint: the member of a set closest to a number, and the members within a distance of it. A set is the ends of its intervals in a slice.
// Distances are exact, from 0 to 2^64 - 1. Special are the empty set, which is refused, a number that is itself a member, and a distance that reaches past MIN or MAX.
#![tactic(auto)]

ghost use Rattle.std.specs.Prelude.{◌≡◌, ◌≤◌, ◌+◌, pos, ◌+ℤ◌, ◌-ℤ◌, slice_index_or, length, IfOk};
ghost use Rattle.meaning.specs.Number as point;
ghost use Rattle.meaning.specs.Interval.{Proper};
ghost use Rattle.meaning.specs.NumberIntervals.{intervals};
ghost use Rattle.meaning.specs.Setpoints.{clamp, near, setpoint_refusal};
ghost use Rattle.meaning.specs.Promises.{Nears, Reaches};
ghost use Rattle.refusals.specs.Endings.{code_of};
ghost use Rattle.slices.specs.Adds.{Adds};
ghost use Rattle.replies.specs.Returning.{returned};
ghost use Rattle.setpoints.specs.Saying.{member_of, IsClosest};

use refusals::Cause;
use replies::{Written, accept, hand_out};
use sets::{Ends, Operand, meet};
use writer::Writer;

// The operand that a set is; refused is the empty set, and what no set call takes. Out of line, so that a refused set makes no room for an answer.
#[inline(never)]
fn accept_filled(s: &[i64]) -> Result<Operand, Cause>
    ensures refused { code_of result ≡ setpoint_refusal s.now }
    ensures same { IfOk result (λ operand. operand.set.numbers.now ≡ s.now) }
{
    if s.is_empty() {
        return Err(Cause::EmptySet);
    }
    accept(s)
}

// The number of an interval closest to x.
fn closest_in(pair: &[i64; 2], x: i64) -> i64
    requires { Proper (slice_index_or pair.now 0 (pos 0)) (slice_index_or pair.now 1 (pos 0)) }
    ensures { result ≡ clamp x (slice_index_or pair.now 0 (pos 0)) (slice_index_or pair.now 1 (pos 0)) }
{
    x.clamp(pair[0], pair[1])
}

// The member of a set closest to x, the lower one on a tie; an empty set has none.
fn closest(set: Ends, x: i64) -> Option<i64>
    ensures { IsClosest result (intervals set.entry.numbers.now) x }
{
    set.numbers
        .as_chunks::<2>()
        .0
        .iter()
        .map(|pair| closest_in(pair, x))
        .min_by_key(|z| z.abs_diff(x))
}

// The member of a set closest to x, the lower one on a tie.
pub fn nearest(set: &[i64], x: i64) -> Result<i64, Cause>
    ensures nears { Nears set.now x (member_of result) }
{
    closest(accept(set)?.set, x).ok_or(Cause::EmptySet)
}

// x - d, but not below MIN.
fn lowest(x: i64, d: u64) -> i64
    ensures { result ≡ point.larger point.MIN (x -ℤ pos d) }
{
    x.saturating_sub_unsigned(d)
}

// x + d, but not above MAX.
fn highest(x: i64, d: u64) -> i64
    ensures { result ≡ point.smaller point.MAX (x +ℤ pos d) }
{
    x.saturating_add_unsigned(d)
}

// Writes the ends of the set of the members within distance d of x.
fn near_into(out: &mut Writer<i64>, set: Ends, x: i64, d: u64)
    requires { out.old.len + (length set.numbers.now + 2) ≤ length out.old.room.now }
    ensures { Adds (near (intervals set.entry.numbers.now) x d) out.new out.old }
{
    let window = [lowest(x, d), highest(x, d)];
    meet(out, set, Ends { numbers: &window });
}

// The set of the members within a distance of x.
// Kept: room, writer and end in three lines, as in `hand_bools` and `intersect`: a function that takes what is written as a closure would be no shorter at its calls.
pub fn within(set: &[i64], x: i64, distance: u64, out: &mut [i64]) -> Result<Written, Cause>
    ensures reaches { Reaches set.now x distance out.old (returned result) out.new }
{
    let operand = accept_filled(set)?;
    let mut ends = [0i64; 64];
    let mut near = Writer::new(&mut ends);
    near_into(&mut near, operand.set, x, distance);
    hand_out(out, near.written(), false)
}
