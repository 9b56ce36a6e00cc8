// The sets of all registers.
ghost use Rattle.std.proofs.Props.{props};
ghost use Rattle.sets.specs.OneWay.{Normal-prop};
ghost use Rattle.set_values.specs.Slots.{Slots};

use crate::FormSet;
use limits::{REGISTERS, SETS, SLOT};

// One array of all registers' numbers, register 0 first: for each how many intervals its set has, then room for their ends, 0 past them.
// Kept: one array and no array of sets, since by a rule of the project the check is lent the registers in this form and leaves them in it.
#[derive(Clone, Copy, Debug, PartialEq, Eq)]
pub struct Registers {
    numbers: [i64; SETS],
    ghost slots: { Slots numbers } by { Prim.hlevel (props, Normal-prop) },
}

impl Registers {
    ghost use Rattle.std.specs.Prelude.{◌≡◌, ◌<◌, set};
    ghost use Rattle.meaning.specs.Sheet.{registers};
    ghost use Rattle.meaning.specs.Check.{at, start_sets, layout};
    ghost use Rattle.set_values.specs.Slots.{sets_in};
    ghost use Rattle.set_values.specs.Value.{set_of, sets_of};

    // Each register may hold any number.
    pub fn start() -> Registers
        ensures { sets_of result ≡ start_sets.sets }
    {
        let mut numbers = [0i64; SETS];
        // Kept: by place, since nothing is said of what an array ends as whose parts are lent as chunks, and three numbers, since the others are 0 already.
        for r in 0..REGISTERS {
            numbers[SLOT * r] = 1;
            numbers[SLOT * r + 1] = i64::MIN;
            numbers[SLOT * r + 2] = i64::MAX;
        }
        Registers { numbers }
    }

    // The sets that these numbers show.
    pub fn of(numbers: &[i64; SETS]) -> Registers
        requires { Slots numbers.now }
        ensures { sets_of result ≡ sets_in registers numbers.now }
    {
        Registers { numbers: *numbers }
    }

    // The set of register r.
    // Kept: a number with a clause and no type Register, which would go through seven crates and ask the same of each caller.
    #[tactic(auto, using(crate::proofs::Layouts::few_count, crate::proofs::Layouts::slot_length))]
    pub fn set(&self, r: usize) -> FormSet
        requires { r < registers }
        ensures { set_of result ≡ at (sets_of self.now) r }
    {
        let slot = &self.numbers[SLOT * r..SLOT * (r + 1)];
        let count = slot[0] as usize;
        FormSet::new(&slot[1..1 + 2 * count])
    }

    // Register r takes a set.
    pub fn give(&mut self, r: usize, value: &FormSet)
        requires { r < registers }
        ensures { sets_of self.new ≡ set (sets_of self.old) r (set_of value.now) }
    {
        value.show(&mut self.numbers[SLOT * r..SLOT * (r + 1)]);
    }

    // Writes the sets as the check lends them: for each register how many intervals, then room for their ends.
    pub fn show(&self, out: &mut [i64; SETS])
        ensures { out.new ≡ layout (sets_of self.now) }
    {
        writer::copy(out, &self.numbers);
    }
}
