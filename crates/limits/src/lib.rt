// The sizes of sheets, of sets and of the slices that calls are lent.
#![tactic(auto)]

// Registers of a sheet.
pub const REGISTERS: usize = 16;

// Intervals of an argument, of a form's set and of a register's.
pub const INTERVALS: usize = 16;

// Their ends.
pub const ENDS: usize = 2 * INTERVALS;

// What shows a register's set: how many intervals, then room for their ends.
pub const SLOT: usize = 1 + ENDS;

// What shows the sets of all registers.
pub const SETS: usize = REGISTERS * SLOT;

// The work of the check: rem's 16 intervals for each of 16 times 16 pairs, two ends each.
pub const WORK: usize = 2 * 16 * INTERVALS * INTERVALS;

// Lines of a sheet, and bytes of a line without its LF.
pub const LINES: usize = 256;

pub const LINE: usize = 120;

// Brackets open inside a line's own: at most 8 in all.
pub const INNER: usize = 7;
