// One line of a run on one number a register: a line is worked, or stops and leaves the state as it was.
#![tactic(auto)]

ghost use Rattle.meaning.specs.Sheet.{registers};
ghost use Rattle.run_lines.specs.Answer.{line_run, Stepped};

use forms::value;
use limits::REGISTERS;
use lines::{Line, read_line};
use point_forms::Values;
use refusals::Cause;

// One line on the state: a stop leaves the state as it was.
#[tactic(auto, using(crate::proofs::Lines::in_there, crate::proofs::Lines::hold_there, crate::proofs::Lines::put_there, crate::proofs::Lines::refused_halts, crate::proofs::Lines::put_goes, crate::proofs::Lines::put_halts))]
pub fn run_line(
    text: &[u8],
    lent: &[i64; REGISTERS],
    state: &mut [i64; REGISTERS],
) -> Result<(), Cause>
    ensures { Stepped result state.new state.old (line_run lent.now state.old text.now) }
{
    match read_line(text)? {
        Line::In(register, range) => {
            let number = lent[register];
            if !range.contains(number) {
                return Err(Cause::OutsideIn);
            }
            state[register] = number;
        }
        Line::Put(register, form) => state[register] = value(form, &mut Values { state })?,
        Line::Hold(register, range) => {
            if !range.contains(state[register]) {
                return Err(Cause::HoldBroken);
            }
        }
    }
    Ok(())
}
