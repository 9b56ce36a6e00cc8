// The lines of the page for the wheelhouse, in bytes: 72 characters and LF for each interval. Each function writes its part behind what the writer has
// already. The interval from MIN to MAX has 2^64 members, one more than a word counts.
#![tactic(auto)]

ghost use Rattle.std.specs.Prelude.{◌≡◌, ◌++◌, ◌+◌, ◌*◌, ◌<◌, ◌≤◌, length};
ghost use Rattle.meaning.specs.Bytes.{bytes};
ghost use Rattle.meaning.specs.NumberIntervals.{Normal, intervals};
ghost use Rattle.meaning.specs.Listing.{decimal, decimal_z};
ghost use Rattle.meaning.specs.Page.{member_count, set_rows, blanks, left_set, right_set, rows_text};
ghost use Rattle.writer.specs.Written.{Fits, Appends};
ghost use Rattle.page_lines.specs.Parts.{interval_line};

use decimal::{push_number, push_signed};
use interval::Interval;
use writer::Writer;

// Bytes of a line of the page: 72 characters and LF.
pub const ROW: usize = 73;

// Blanks, n of them, no more than a column has.
fn push_blanks(out: &mut Writer<u8>, n: usize)
    requires { (n ≤ 20) × (out.old.len + n ≤ length out.old.room.now) }
    ensures text { Appends (blanks n) out.new out.old }
    ensures width { out.new.len ≡ out.old.len + n }
{
    out.push(&[b' '; 20][..n]);
}

// A text in 20 columns, right-set.
fn right_text(out: &mut Writer<u8>, text: &[u8])
    requires { (length text.now ≤ 20) × (out.old.len + 20 ≤ length out.old.room.now) }
    ensures text { Appends (right_set 20 text.now) out.new out.old }
    ensures width { out.new.len ≡ out.old.len + 20 }
{
    push_blanks(out, 20 - text.len());
    out.push(text);
}

// A number in 20 columns, right-set.
fn right_number(out: &mut Writer<u8>, x: i64)
    requires { out.old.len + 20 ≤ length out.old.room.now }
    ensures text { Appends (right_set 20 (decimal_z x)) out.new out.old }
    ensures width { out.new.len ≡ out.old.len + 20 }
{
    let mut digits = [0u8; 20];
    let mut number = Writer::new(&mut digits);
    push_signed(&mut number, x);
    right_text(out, number.written());
}

// How many members an interval has, in 20 columns, right-set.
fn right_count(out: &mut Writer<u8>, numbers: Interval)
    requires { out.old.len + 20 ≤ length out.old.room.now }
    ensures text { Appends (right_set 20 (decimal_z (member_count numbers.lo numbers.hi))) out.new out.old }
    ensures width { out.new.len ≡ out.old.len + 20 }
{
    match words::distance(numbers.lo, numbers.hi).checked_add(1) {
        Some(count) => {
            let mut digits = [0u8; 20];
            let mut number = Writer::new(&mut digits);
            push_number(&mut number, count);
            right_text(out, number.written());
        }
        None => right_text(out, b"18446744073709551616"),
    }
}

// The name of register r in 3 columns, left-set.
// Kept: that r has two digits stands here and below, since a type of the sixteen registers would ask more than the page's lines may ask.
fn left_name(out: &mut Writer<u8>, r: usize)
    requires { (r < 100) × (out.old.len + 3 ≤ length out.old.room.now) }
    ensures text { Appends (left_set 3 (bytes "r" ++ decimal r)) out.new out.old }
    ensures width { out.new.len ≡ out.old.len + 3 }
{
    let end = out.len + 3;
    out.push(b"r");
    push_number(out, r as u64);
    push_blanks(out, end - out.len);
}

// The line of an interval of register r, and its LF.
fn interval_line(out: &mut Writer<u8>, r: usize, numbers: Interval)
    requires { (r < 100) × (out.old.len + 73 ≤ length out.old.room.now) }
    ensures { Appends (interval_line r numbers.lo numbers.hi) out.new out.old }
{
    left_name(out, r);
    out.push(b" ");
    right_number(out, numbers.lo);
    out.push(b"..");
    right_number(out, numbers.hi);
    out.push(b" ");
    right_count(out, numbers);
    out.push(b"     \n");
}

// The lines of the intervals of register r, whose ends the slice holds.
pub fn register_lines(out: &mut Writer<u8>, r: usize, ends: &[i64])
    requires { (r < 100) × Normal (intervals ends.now) × (out.old.len + 73 * length (intervals ends.now) ≤ length out.old.room.now) }
    ensures { Appends (rows_text (set_rows r (intervals ends.now))) out.new out.old }
{
    for &[lo, hi] in ends.as_chunks::<2>().0 {
        interval_line(out, r, Interval { lo, hi });
    }
}
