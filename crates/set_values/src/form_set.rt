// The set of a form or a register.
ghost use Rattle.std.proofs.Props.{props};
ghost use Rattle.sets.specs.OneWay.{Normal-prop};
ghost use Rattle.set_values.specs.Held.{Held};

use interval::Interval;
use limits::ENDS;
use sets::{Ends, Operand};

// A set that is normal, not empty, and of at most 16 intervals: how many, and room for their ends, 0 past them.
// Kept: a count beside fixed room, since nothing is on the heap, and the cores read ends from slices.
#[derive(Clone, Copy, Debug, PartialEq, Eq)]
pub struct FormSet {
    count: usize,
    ends: [i64; ENDS],
    ghost held: { Held count ends } by { Prim.hlevel (props, Normal-prop) },
}

impl FormSet {
    ghost use Rattle.std.specs.Prelude.{◌≡◌, length};
    ghost use Rattle.meaning.specs.Check.{slot, slot_size};
    ghost use Rattle.meaning.specs.NumberIntervals.{intervals, flat};
    ghost use Rattle.set_values.specs.Held.{Few};
    ghost use Rattle.set_values.specs.Value.{set_of};

    // The set of the intervals with these ends.
    pub fn new(ends: &[i64]) -> FormSet
        requires { Few ends.now }
        ensures { set_of result ≡ intervals ends.now }
    {
        let mut room = [0; ENDS];
        room[..ends.len()].copy_from_slice(ends);
        FormSet {
            count: ends.len() / 2,
            ends: room,
        }
    }

    // The ends of its intervals.
    pub fn numbers(&self) -> &[i64]
        ensures { result.now ≡ flat (set_of self.now) }
    {
        &self.ends[..2 * self.count]
    }

    // The ends of its intervals, as the cores take them.
    pub fn ends(&self) -> Operand
        ensures { result.set.numbers.now ≡ flat (set_of self.now) }
    {
        let numbers = self.numbers();
        Operand {
            set: Ends { numbers },
        }
    }

    // Writes how many intervals it has, then room for their ends, 0 past them.
    pub(crate) fn show(&self, out: &mut [i64])
        requires { length out.old ≡ slot_size }
        ensures { out.new ≡ slot (set_of self.now) }
    {
        out[0] = self.count as i64;
        writer::copy(&mut out[1..], &self.ends);
    }
}

// The set of one interval.
impl From<Interval> for FormSet {
    ghost use Rattle.std.specs.Prelude.{◌≡◌};
    ghost use Rattle.meaning.specs.Interval.{span};
    ghost use Rattle.set_values.specs.Value.{set_of};

    ghost from_gives = { λ interval set. set_of set ≡ span interval.lo interval.hi };

    fn from(interval: Interval) -> FormSet {
        FormSet::new(&[interval.lo, interval.hi])
    }
}
