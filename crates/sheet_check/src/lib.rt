// The check of a sheet: one set a register, worked line by line. The lent sets are written on a pass only.
#![tactic(auto)]

ghost use Rattle.std.specs.Prelude.{◌≡◌};
ghost use Rattle.meaning.specs.Check.{interval_limit, check_text, start_sets, work_left_by};
ghost use Rattle.sheet.specs.Judging.{IsSheet};
ghost use Rattle.sheet_check.specs.Answer.{Called};
ghost use Rattle.set_values.specs.Value.{sets_of};
ghost use Rattle.set_values.specs.declared.registers.Registers.{Registers};
ghost use Rattle.sheet_check.specs.Checked.{Checked, passed, shown};

use limits::{SETS, WORK};
use refusals::{Cause, Trouble};
use set_lines::check_line;
use set_values::Registers;
use sheet::{Lines, judge_text};

// A sheet that passes: how many lines it has, and the registers' sets after the last one.
#[derive(Clone, Copy, Debug, PartialEq, Eq)]
pub struct Passed {
    pub count: usize,
    pub registers: Registers,
}

// The lines of a sheet in order, on registers that may hold any number.
// Kept: a walk of its own beside that of the run, since the two share a `for` and a `map_err`, and a trait of one step is longer than both.
fn check_lines(
    text: &[u8],
    count: usize,
    registers: &mut Registers,
    work: &mut [i64; WORK],
) -> Result<usize, Trouble>
    requires sheet { IsSheet text.now count }
    requires any { sets_of registers.old ≡ start_sets.sets }
    ensures { Checked (passed result registers.new) (check_text interval_limit text.now) }
{
    for (n, line) in Lines::of(text).enumerate() {
        check_line(line, registers, work).map_err(|cause| Trouble::Stopped(cause, n + 1))?;
    }
    Ok(count)
}

// The check of a sheet of so many lines, on registers that are lent as they start and keep the sets after the last line. What stops a line is a stop.
pub fn check_sheet(
    text: &[u8],
    count: usize,
    registers: &mut Registers,
    work: &mut [i64; WORK],
) -> Result<usize, Trouble>
    requires sheet { IsSheet text.now count }
    requires any { sets_of registers.old ≡ start_sets.sets }
    ensures answer { Checked (passed result registers.new) (check_text interval_limit text.now) }
    ensures left { work.new ≡ work_left_by work.old (check_text interval_limit text.now) }
{
    let checked = check_lines(text, count, registers, work);
    work.fill(0);
    checked
}

// The check of any bytes. What stops a line is a stop: a divisor that may be 0, or a hold that is broken; what reading meets refuses, and leaves the work slice as it was lent.
pub fn check_text(text: &[u8], work: &mut [i64; WORK]) -> Result<Passed, Trouble>
    ensures answer { Checked result (check_text interval_limit text.now) }
    ensures left { work.new ≡ work_left_by work.old (check_text interval_limit text.now) }
{
    let count = judge_text(text)?;
    let mut registers = Registers::start();
    let count = check_sheet(text, count, &mut registers, work)?;
    Ok(Passed { count, registers })
}

// The same of a sheet of so many lines: on a pass the sets after the last line are written.
// Kept: a function of its own, since a text that is refused needs no room for the registers.
#[inline(never)]
fn check_sets(
    text: &[u8],
    lines: usize,
    sets: &mut [i64; SETS],
    work: &mut [i64; WORK],
) -> Result<usize, Trouble>
    requires { IsSheet text.now lines }
    ensures answer { (registers : Registers) × Checked (passed result registers) (check_text interval_limit text.now) × (sets.new ≡ shown result registers sets.old) }
    ensures left { work.new ≡ work_left_by work.old (check_text interval_limit text.now) }
{
    let mut registers = Registers::start();
    let passed = check_sheet(text, lines, &mut registers, work)?;
    registers.show(sets);
    Ok(passed)
}

// The same on lent slices: on a pass the sets after the last line are written to `sets`. A short slice refuses first.
#[tactic(auto, using(sheet::proofs::Judging::fine_sheet))]
pub fn check(text: &[u8], sets: &mut [i64], work: &mut [i64]) -> Result<usize, Trouble>
    ensures { Called text.now sets.old work.old result sets.new work.new }
{
    let sets = sets.first_chunk_mut::<SETS>().ok_or(Cause::TooShort)?;
    let work = work.first_chunk_mut::<WORK>().ok_or(Cause::TooShort)?;
    let lines = judge_text(text)?;
    check_sets(text, lines, sets, work)
}
