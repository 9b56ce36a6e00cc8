// Types as a caller would write them for the library's traits, by values alone: an algebra, which tells whether a form reads a register, and a text of a register.
#![tactic(auto)]

ghost use Rattle.std.specs.Prelude.{Bool, length, ◌∷◌, []};
ghost use Rattle.implementers.specs.Reads.{reads};

#[cfg(test)]
mod tests;

use forms::{Algebra, Op1, Op2};
use listed::RegisterText;
use set_values::FormSet;
use writer::Writer;

// Tells whether a form reads a register.
#[derive(Clone, Copy)]
pub struct Reads;

impl Algebra for Reads {
    type Value = bool;

    ghost Meaning = { Bool };

    ghost meaning = { λ b. b };

    ghost algebra = { λ s. reads };

    fn literal(&mut self, _z: Option<i64>) -> bool {
        false
    }

    fn register(&mut self, _r: usize) -> bool {
        true
    }

    fn one(&mut self, _op: Op1, a: bool) -> bool {
        a
    }

    fn two(&mut self, _op: Op2, a: bool, b: bool) -> bool {
        a || b
    }
}

// A register as two bytes: its number, and how many intervals its set has.
#[derive(Clone, Copy)]
pub struct IntervalCount;

impl RegisterText for IntervalCount {
    ghost text = { λ r s. r ∷ length s ∷ [] };

    fn write(out: &mut Writer<u8>, r: usize, set: FormSet) {
        out.push(&[r as u8, (set.ends().set.numbers.len() / 2) as u8]);
    }
}
