// The run of a sheet: one number a register, line after line.
// The lent numbers are copied first: they are the state at the start, and an `in` reads them as they were lent, whatever is written afterwards.
#![tactic(auto)]

ghost use Rattle.std.specs.Prelude.{◌≡◌, ◌<◌, ◌≤◌, ℕ, length, MatchOption};
ghost use Rattle.meaning.specs.Outcome.{work as work_lines};
ghost use Rattle.meaning.specs.Sheet.{registers};
ghost use Rattle.meaning.specs.Lists.{All};
ghost use Rattle.meaning.specs.Number.{InRange};
ghost use Rattle.meaning.specs.Run.{run_line, start_numbers};
ghost use Rattle.sheet.specs.Judging.{IsSheet};
ghost use Rattle.run.specs.Answer.{counted, Worked, Ran};

use limits::REGISTERS;
use refusals::{Cause, Trouble};
use run_lines::run_line;
use sheet::{Lines, judge_text};

// The numbers lent for the registers, which are from MIN to MAX; none if there are fewer.
fn lent_numbers(lent: &[i64]) -> Option<[i64; REGISTERS]>
    ensures { MatchOption result
        (length lent.now < registers)
        (λ numbers. (registers ≤ length lent.now) × (numbers ≡ start_numbers lent.now) × All InRange (start_numbers lent.now)) }
{
    if lent.len() < REGISTERS {
        return None;
    }
    let mut numbers = [0; REGISTERS];
    // Kept: a number that is read is known to be from MIN to MAX; of those of a copied slice no contract says so.
    for i in 0..REGISTERS {
        numbers[i] = lent[i];
    }
    Some(numbers)
}

// The lines of a sheet on the state: nothing, or the line that stops the run.
fn work(text: &[u8], lent: &[i64; REGISTERS], state: &mut [i64; REGISTERS]) -> Result<(), Trouble>
    ensures { (n : ℕ) (sheet : IsSheet text.now n) → Worked n (counted n result) state.new (work_lines (run_line lent.now) 1 state.old sheet.lines) }
{
    for (n, line) in Lines::of(text).enumerate() {
        run_line(line, lent, state).map_err(|cause| Trouble::Stopped(cause, n + 1))?;
    }
    Ok(())
}

// The run of any bytes on the numbers lent for the registers.
pub fn run(text: &[u8], lent: &mut [i64]) -> Result<usize, Trouble>
    ensures { Ran text.now lent.old result lent.new }
{
    let numbers = lent_numbers(lent).ok_or(Cause::TooShort)?;
    let count = judge_text(text)?;
    let mut state = numbers;
    let ended = work(text, &numbers, &mut state);
    lent[..REGISTERS].copy_from_slice(&state);
    ended.map(|()| count)
}
