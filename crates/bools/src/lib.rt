// BoolInterval: may be false, may be true. From a set: false if 0 is in it, true if it is neither empty nor exactly {0}; back: 0 and 1000.
// Kept: not, and, or are functions beside le, lt, ne, each named as the operation that it answers, where an operator would stand for some of them.
#![tactic(auto)]

ghost use Rattle.std.specs.Prelude.{◌≡◌, ◌+◌, ◌≤◌, length};
ghost use Rattle.meaning.specs.Bools.{not_bools, and_bools, or_bools};
ghost use Rattle.meaning.specs.NumberIntervals.{as_bools, of_bools, intervals, filled, zero_only, le_bools, lt_bools, ne_bools, constant, same_number};
ghost use Rattle.slices.specs.Adds.{Adds};
ghost use Rattle.bools.specs.Reading.{bools_of};

use sets::{Ends, Operand};
use slices::{put_one, put_two};
use words::ONE;
use writer::Writer;

// What a truth value may be; neither, for an empty set.
// Kept: each of the two may be true by itself, so it is no Option.
#[derive(Clone, Copy, Debug, PartialEq, Eq)]
pub struct BoolInterval {
    pub bfalse: bool,
    pub btrue: bool,
}

// The opposite of what it may be.
pub fn not(a: BoolInterval) -> BoolInterval
    ensures { bools_of result ≡ not_bools (bools_of a) }
{
    BoolInterval {
        bfalse: a.btrue,
        btrue: a.bfalse,
    }
}

// False if either may be, true if both may be.
pub fn and(a: BoolInterval, b: BoolInterval) -> BoolInterval
    ensures { bools_of result ≡ and_bools (bools_of a) (bools_of b) }
{
    BoolInterval {
        bfalse: a.bfalse || b.bfalse,
        btrue: a.btrue && b.btrue,
    }
}

// False if both may be, true if either may be.
pub fn or(a: BoolInterval, b: BoolInterval) -> BoolInterval
    ensures { bools_of result ≡ or_bools (bools_of a) (bools_of b) }
{
    BoolInterval {
        bfalse: a.bfalse && b.bfalse,
        btrue: a.btrue || b.btrue,
    }
}

// The set has an interval.
#[tactic(auto, using(crate::proofs::Ends::filled_long))]
pub fn is_filled(s: &[i64]) -> bool
    ensures { result ≡ filled (intervals s.now) }
{
    1 < s.len()
}

// The number of a set of just one.
fn lone(s: &[i64]) -> Option<i64>
    ensures { result ≡ constant (intervals s.now) }
{
    match s.as_chunks::<2>().0 {
        [[a, b]] if a == b => Some(*a),
        _ => None,
    }
}

// The set is exactly {0}.
fn is_zero(s: &[i64]) -> bool
    ensures { result ≡ zero_only (intervals s.now) }
{
    lone(s) == Some(0)
}

// What a set may be.
// Kept: a function and no From, since its name says that it reads a set, where other slices of numbers are no sets.
#[tactic(auto, unfolding(meaning::specs::NumberIntervals::as_bools))]
pub fn of_set(s: &[i64]) -> BoolInterval
    ensures { bools_of result ≡ as_bools (intervals s.now) }
{
    BoolInterval {
        bfalse: sets::contains(s, 0),
        btrue: is_filled(s) && !is_zero(s),
    }
}

// Writes the set back: 0 if it may be false, 1000 if it may be true.
#[tactic(auto, unfolding(meaning::specs::NumberIntervals::of_bools))]
pub fn put(out: &mut Writer<i64>, b: BoolInterval)
    requires { out.old.len + 4 ≤ length out.old.room.now }
    ensures { Adds (of_bools (bools_of b)) out.new out.old }
{
    match (b.bfalse, b.btrue) {
        (true, true) => put_two(out, 0, 0, ONE, ONE),
        (true, false) => put_one(out, 0, 0),
        (false, true) => put_one(out, ONE, ONE),
        (false, false) => {}
    }
}

// le may be true if some left start is at most a right end, false if some left end is past a right start: the first starts and the last ends decide.
pub fn le(left: Ends, right: Ends) -> BoolInterval
    ensures { bools_of result ≡ le_bools (intervals left.entry.numbers.now) (intervals right.entry.numbers.now) }
{
    match (left.numbers, right.numbers) {
        ([s, .., e], [t, .., f]) => BoolInterval {
            bfalse: *t < *e,
            btrue: *s <= *f,
        },
        _ => BoolInterval {
            bfalse: false,
            btrue: false,
        },
    }
}

// lt may be true where le of the two swapped may be false, and false where that may be true.
pub fn lt(left: Ends, right: Ends) -> BoolInterval
    ensures { bools_of result ≡ lt_bools (intervals left.entry.numbers.now) (intervals right.entry.numbers.now) }
{
    not(le(right, left))
}

// Both sets are one and the same number.
fn same_number(left: &[i64], right: &[i64]) -> bool
    ensures { result ≡ same_number (constant (intervals left.now)) (constant (intervals right.now)) }
{
    match (lone(left), lone(right)) {
        (Some(a), Some(b)) => a == b,
        _ => false,
    }
}

// ne: not equal where the sets share nothing, equal where both are one and the same number, else either.
pub fn ne(left: Operand, right: Operand) -> BoolInterval
    ensures { bools_of result ≡ ne_bools (intervals left.entry.set.numbers.now) (intervals right.entry.set.numbers.now) }
{
    let mut room = [0i64; 64];
    let mut common = Writer::new(&mut room);
    sets::meet(&mut common, left.set, right.set);
    let shared = 0 < common.len;
    BoolInterval {
        bfalse: shared,
        btrue: !shared || !same_number(left.set.numbers, right.set.numbers),
    }
}
