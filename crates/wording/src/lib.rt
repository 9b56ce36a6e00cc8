// The lines of a listing, in bytes: words, numbers and intervals. Each function writes its part behind what the writer has already.
#![tactic(auto)]

ghost use Rattle.meaning.specs.NumberIntervals.{intervals};
ghost use Rattle.meaning.specs.Listing.{trouble_line, pass_line, interval_texts, register_line};
ghost use Rattle.refusals.specs.Numbers.{number_of};
ghost use Rattle.writer.specs.Written.{Fits, Appends};
ghost use Rattle.wording.specs.Texts.{interval_text};

use decimal::{push_number, push_signed};
use refusals::Cause;
use writer::Writer;

// "pass N" and LF.
#[tactic(auto, unfolding(meaning::specs::Listing::pass_line))]
pub fn pass_line(out: &mut Writer<u8>, n: usize)
    requires { Fits (pass_line n) out.old }
    ensures { Appends (pass_line n) out.new out.old }
{
    out.push(b"pass ");
    push_number(out, n as u64);
    out.push(b"\n");
}

// The one line of a refusal or a finding: its word, a number and a line.
#[tactic(auto, unfolding(meaning::specs::Listing::trouble_line))]
pub fn number_line(out: &mut Writer<u8>, word: &[u8], number: u8, line: usize)
    requires { Fits (trouble_line word.now number line) out.old }
    ensures { Appends (trouble_line word.now number line) out.new out.old }
{
    out.push(word);
    push_number(out, number as u64);
    out.push(b" ");
    push_number(out, line as u64);
    out.push(b"\n");
}

// The same of a cause, by its number in the table.
pub fn trouble_line(out: &mut Writer<u8>, word: &[u8], cause: Cause, line: usize)
    requires { Fits (trouble_line word.now (number_of cause) line) out.old }
    ensures { Appends (trouble_line word.now (number_of cause) line) out.new out.old }
{
    number_line(out, word, u8::from(cause), line);
}

// " LO..HI"
// Kept: two ends in place of an interval, since it asks nothing of their order.
fn interval_text(out: &mut Writer<u8>, lo: i64, hi: i64)
    requires { Fits (interval_text lo hi) out.old }
    ensures { Appends (interval_text lo hi) out.new out.old }
{
    out.push(b" ");
    push_signed(out, lo);
    out.push(b"..");
    push_signed(out, hi);
}

// " LO..HI" for each interval whose ends the slice holds.
fn interval_texts(out: &mut Writer<u8>, ends: &[i64])
    requires { Fits (interval_texts (intervals ends.now)) out.old }
    ensures { Appends (interval_texts (intervals ends.now)) out.new out.old }
{
    for &[lo, hi] in ends.as_chunks::<2>().0 {
        interval_text(out, lo, hi);
    }
}

// "rR LO..HI .." and LF, for register r and the ends of its set.
#[tactic(auto, unfolding(meaning::specs::Listing::register_line))]
pub fn register_line(out: &mut Writer<u8>, r: usize, ends: &[i64])
    requires { Fits (register_line r (intervals ends.now)) out.old }
    ensures { Appends (register_line r (intervals ends.now)) out.new out.old }
{
    out.push(b"r");
    push_number(out, r as u64);
    interval_texts(out, ends);
    out.push(b"\n");
}
