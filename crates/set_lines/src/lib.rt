// One line of a sheet on the sets of the registers.
#![tactic(auto)]

ghost use Rattle.std.specs.Prelude.{◌≡◌, ◌&&◌, pos, slice_index_or};
ghost use Rattle.std.specs.Int.Signed.{le_z};
ghost use Rattle.meaning.specs.NumberIntervals.{intervals};
ghost use Rattle.meaning.specs.Check.{inside as inside_of};
ghost use Rattle.refusals.specs.Endings.{code_of};
ghost use Rattle.set_values.specs.Value.{set_of, bands_of};
ghost use Rattle.set_lines.specs.Worked.{hold_number, line_check, line_left};

use forms::value;
use interval::Interval;
use limits::WORK;
use lines::{Line, read_line};
use refusals::Cause;
use set_forms::Sets;
use set_values::{FormSet, Registers};

// The interval with these ends lies within the bounds.
fn lies_in(ends: &[i64; 2], bounds: Interval) -> bool
    ensures { result ≡ (le_z bounds.lo (slice_index_or ends.now 0 (pos 0)) && le_z (slice_index_or ends.now 1 (pos 0)) bounds.hi) }
{
    bounds.lo <= ends[0] && ends[1] <= bounds.hi
}

// No member of the set with these ends is outside the bounds.
// Kept: beside the walk of `sets::contains`, since `all`, `any` and what is asked of a pair differ, and a generic walk of what is left would be `as_chunks::<2>().0.iter()` by another name.
fn inside(ends: &[i64], bounds: Interval) -> bool
    ensures { result ≡ inside_of bounds.lo (intervals ends.now) bounds.hi }
{
    ends.as_chunks::<2>()
        .0
        .iter()
        .all(|pair| lies_in(pair, bounds))
}

// A hold is broken if its register's set has a value outside the bounds.
fn hold(set: &FormSet, bounds: Interval) -> Result<(), Cause>
    ensures { code_of result ≡ hold_number (inside_of bounds.lo (set_of set.now) bounds.hi) }
{
    if inside(set.ends().set.numbers, bounds) {
        Ok(())
    } else {
        Err(Cause::HoldBroken)
    }
}

// One line on the registers' sets.
pub fn check_line(
    text: &[u8],
    registers: &mut Registers,
    work: &mut [i64; WORK],
) -> Result<(), Cause>
    ensures { line_left result registers.new ≡ line_check (bands_of registers.old) text.now }
{
    match read_line(text)? {
        Line::In(r, interval) => {
            registers.give(r, &FormSet::from(interval));
            Ok(())
        }
        Line::Put(r, form) => {
            let value = value(form, &mut Sets { registers, work });
            let set = match &value {
                Ok(set) => set,
                Err(cause) => return Err(*cause),
            };
            registers.give(r, set);
            Ok(())
        }
        Line::Hold(r, bounds) => hold(&registers.set(r), bounds),
    }
}
