// What the parts that show a passed sheet share: the registers that it writes, each with its set, and a text made of them.
#![tactic(auto)]

ghost use Rattle.std.specs.Prelude.{◌≡◌, ℕ, ◌<◌, List};
ghost use Rattle.meaning.specs.NumberIntervals.{Set};
ghost use Rattle.meaning.specs.Sheet.{registers};
ghost use Rattle.meaning.specs.Reading.{read_line};
ghost use Rattle.writer.specs.Written.{Fits, Appends};
ghost use Rattle.sheet.specs.Judging.{IsSheet};
ghost use Rattle.set_values.specs.Value.{set_of};
ghost use Rattle.listed.specs.Marks.{mark_line, marks_of, Readable};

use limits::{REGISTERS, WORK};
use lines::{Line, read_line};
use refusals::Trouble;
use set_values::{FormSet, Registers};
use sheet::{Lines, judge_text};
use sheet_check::check_sheet;
use writer::Writer;

// What a part writes of a register.
pub trait RegisterText {
    ghost text: { ℕ → Set → List ℕ };

    // Of register r with this set.
    fn write(out: &mut Writer<u8>, r: usize, set: FormSet)
        requires { (r < registers) × Fits (text r (set_of set)) out.old }
        ensures { Appends (text r (set_of set)) out.new out.old };

    // The same of a set that is lent, which `Shown::write` calls. A part that can read the set where it lies writes this itself, so that none is copied.
    fn write_lent(out: &mut Writer<u8>, r: usize, set: &FormSet)
        requires { (r < registers) × Fits (text r (set_of set.now)) out.old }
        ensures { Appends (text r (set_of set.now)) out.new out.old }
    {
        Self::write(out, r, *set);
    }
}

// Marks the register of a line's `in` or `put`.
// Kept: an arm for each kind of line, since behind `In(r, _) | Put(r, _)` nothing says which of them r stands in: the index, and what is marked, stay open.
fn mark(marks: &mut [bool; REGISTERS], line: &[u8])
    requires { Readable line.now }
    ensures { marks.new ≡ mark_line (read_line line.now) marks.old }
{
    match read_line(line) {
        Ok(Line::In(r, _)) => marks[r] = true,
        Ok(Line::Put(r, _)) => marks[r] = true,
        Ok(Line::Hold(..)) => {}
        Err(_) => {}
    }
}

// The registers that the lines of a sheet write are marked.
fn marks_of(text: &[u8]) -> [bool; REGISTERS]
    requires { (n : ℕ) × IsSheet text.now n }
    ensures { result ≡ marks_of text.now }
{
    let mut marks = [false; REGISTERS];
    for line in Lines::of(text) {
        mark(&mut marks, line);
    }
    marks
}

// A sheet that the check passes: how many lines it has, the registers that they write, and all registers' sets after the last one.
// Kept: the count is that of the lines, and no length of what stands beside it.
#[derive(Clone, Copy, Debug, PartialEq, Eq)]
pub struct Shown {
    pub count: usize,
    marks: [bool; REGISTERS],
    registers: Registers,
}

impl Shown {
    ghost use Rattle.std.specs.Prelude.{option_map};
    ghost use Rattle.listed.specs.Showing.{shown, whole, Told};

    // The sheet of a text, or what the check answers in its place.
    pub fn of(text: &[u8]) -> Result<Shown, Trouble>
        ensures { Told result text.now }
    {
        let mut work = [0i64; WORK];
        let lines = judge_text(text)?;
        let mut registers = Registers::start();
        let count = check_sheet(text, lines, &mut registers, &mut work)?;
        Ok(Shown {
            count,
            marks: marks_of(text),
            registers,
        })
    }

    // The set of register r, if the sheet writes it.
    pub fn set(&self, r: usize) -> Option<FormSet>
        requires { r < registers }
        ensures { option_map set_of result ≡ shown self.now r }
    {
        self.marks[r].then(|| self.registers.set(r))
    }

    // Writes the text of each register that the sheet writes.
    pub fn write<T: RegisterText>(&self, out: &mut Writer<u8>)
        requires { Fits (whole T.text self.now) out.old }
        ensures { Appends (whole T.text self.now) out.new out.old }
    {
        for r in 0..REGISTERS {
            if let Some(set) = &self.set(r) {
                T::write_lent(out, r, set);
            }
        }
    }
}
