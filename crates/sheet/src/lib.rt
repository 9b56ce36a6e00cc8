// A whole text of a sheet: where its lines end, the line finder, and which refusal the text meets.
// A line is what an LF (byte 10) ends. What stands behind the last LF is no line.
#![tactic(auto)]

ghost use Rattle.std.specs.Prelude.{◌≡◌, [], ◌+◌, ◌<◌, ◌==◌, ◌&&◌, leb, length, drop, position};
ghost use Rattle.std.specs.Iterator.{YieldsFirstRef, at_most};
ghost use Rattle.meaning.specs.Text.{line_at, cut, split_lines, lines, empty, narrow, shaped as shaped_text, Seen as SeenLines, nothing_seen, read_one, read_lines};
ghost use Rattle.refusals.specs.Endings.{ending_of};
ghost use Rattle.sheet.specs.Answer.{judgement_for, Judges};
ghost use Rattle.sheet.specs.Judging.{Notes, Reads};
ghost use Rattle.sheet.specs.Place.{Placed};

use limits::{LINE, LINES, REGISTERS};
use lines::{Line, read_line};
use refusals::{Cause, Trouble};

// Where the first LF of the text stands.
// Kept: a count of the bytes before it in place of `position`, whose loop is longer: where that lies across 32 bytes of a program, the line finder takes
// half as long again.
fn first_lf(text: &[u8]) -> Option<usize>
    ensures { result ≡ position (λ byte. byte == 10) text.now }
{
    let end = text.iter().take_while(|byte| **byte != b'\n').count();
    (end < text.len()).then_some(end)
}

// The lines of a text in order, each without its LF.
#[derive(Clone, Copy, Debug)]
pub struct Lines<'a> {
    // What is left of the text.
    pub rest: &'a [u8],
}

impl<'a> Lines<'a> {
    pub fn of(text: &'a [u8]) -> Lines<'a>
        ensures { result.rest.now ≡ text.now }
    {
        Lines { rest: text }
    }
}

impl<'a> Iterator for Lines<'a> {
    type Item = &'a [u8];

    ghost next_gives = { YieldsFirstRef (λ it. lines it.rest.now) };

    ghost remaining = { λ it. at_most (length it.rest.now) };

    #[tactic(auto, using(crate::proofs::Feeds::none_first))]
    fn next(&mut self) -> Option<&'a [u8]> {
        let text = self.rest;
        let end = first_lf(text)?;
        self.rest = &text[end + 1..];
        Some(&text[..end])
    }
}

// An LF ends the text, or it is empty.
#[tactic(auto, using(crate::proofs::Feeds::ended_is))]
fn ended(text: &[u8]) -> bool
    ensures { result ≡ empty (split_lines text.now).rest }
{
    text.last().is_none_or(|byte| *byte == b'\n')
}

// At most 256 lines, none over 120 bytes.
fn fits(text: &[u8]) -> bool
    ensures { result ≡ (leb (length (lines text.now)) 256 && narrow (lines text.now)) }
{
    Lines::of(text)
        .enumerate()
        .all(|(n, line)| n < LINES && line.len() <= LINE)
}

// At most 256 lines, none over 120 bytes, and an LF at the end.
fn shaped(text: &[u8]) -> bool
    ensures { result ≡ shaped_text (split_lines text.now) }
{
    fits(text) && ended(text)
}

// Where a line starts in its text, and its length in bytes.
// Kept: 0 and 0 for a line that is not there in place of an option, since this is the struct that C gets.
#[repr(C)]
#[derive(Clone, Copy, Default)]
pub struct Part {
    pub start: usize,
    pub len: usize,
}

// Where what is behind the first k lines starts; the end of the text if there are fewer.
// Kept: a walk of its own, since `Lines` stays before what no LF ends, and with fewer than k lines this goes past it.
#[tactic(auto, using(crate::proofs::Feeds::start_first))]
pub fn line_start(text: &[u8], k: usize) -> usize
    ensures { result ≡ length (cut text.now k) }
{
    let mut rest = text;
    for _i in 0..k {
        let Some(end) = first_lf(rest) else {
            return text.len();
        };
        rest = &rest[end + 1..];
    }
    text.len() - rest.len()
}

// Where line n stands in the text, without its LF; 0 and 0 for line 0 or a line that has no LF.
#[tactic(auto, using(crate::proofs::Feeds::cut_le))]
pub fn place(text: &[u8], n: usize) -> Part
    ensures { Placed text.now n result }
{
    let Some(before) = n.checked_sub(1) else {
        return Part::default();
    };
    let start = line_start(text, before);
    match first_lf(&text[start..]) {
        Some(len) => Part { start, len },
        None => Part::default(),
    }
}

// The part of the text for line n, as `place` finds it; a contract can speak of its bytes alone.
pub fn line(text: &[u8], n: usize) -> &[u8]
    ensures { result.now ≡ line_at text.now n }
{
    let part = place(text, n);
    &text[part.start..part.start + part.len]
}

// What was seen of the lines so far: whether another kind than `in` came, and the registers with an `in`.
// Kept: `other` tells of the lines, not of `taken`, which is read whether it holds or not.
#[derive(Clone, Copy)]
struct Seen {
    other: bool,
    taken: [bool; REGISTERS],
}

impl Seen {
    // One more line, from its bytes: it is refused, also where an `in` may not stand.
    #[tactic(auto, using(crate::proofs::Judging::in_there, crate::proofs::Judging::line_stops))]
    fn read(&mut self, text: &[u8]) -> Result<(), Cause>
        ensures { (before : SeenLines) → Notes self.old before → Reads result self.new (read_one before text.now) }
    {
        match read_line(text)? {
            Line::In(register, _) => {
                if self.other || self.taken[register] {
                    return Err(Cause::Misplaced);
                }
                self.taken[register] = true;
            }
            Line::Put(..) | Line::Hold(..) => self.other = true,
        }
        Ok(())
    }
}

// The lines in order: their count, or the first that is refused.
// Kept: a count by hand, since it is answered too, and the numbers of an `enumerate` end with the loop.
#[tactic(auto, using(crate::proofs::Judging::going_start))]
fn judge_lines(text: &[u8]) -> Result<usize, Trouble>
    ensures { ending_of result ≡ judgement_for (read_lines 1 nothing_seen (lines text.now)) }
{
    let mut seen = Seen {
        other: false,
        taken: [false; REGISTERS],
    };
    let mut count = 0;
    for line in Lines::of(text) {
        count += 1;
        seen.read(line)
            .map_err(|cause| Trouble::Refused(cause, count))?;
    }
    Ok(count)
}

// Any bytes, of any length: the shape of the whole text first, then line by line the grammar, the literals, and where an `in` stands.
pub fn judge_text(text: &[u8]) -> Result<usize, Trouble>
    ensures { Judges text.now result }
{
    if shaped(text) {
        judge_lines(text)
    } else {
        Err(Trouble::Refused(Cause::Misshapen, 0))
    }
}
