// Numbers in decimal, written behind what a writer has already. A negative number has a minus before its digits.
#![tactic(auto)]

ghost use Rattle.std.specs.Prelude.{◌≡◌, ◌≤◌, ◌+◌, drop};
ghost use Rattle.meaning.specs.Listing.{decimal, decimal_z};
ghost use Rattle.writer.specs.Written.{Fits, Appends};

use writer::Writer;

// A digit as its byte.
fn digit(d: u64) -> u8
    requires { d ≤ 9 }
    ensures { result ≡ 48 + d }
{
    b'0' + (d as u8)
}

// Writes the digits of n before the end of the buffer, and returns where they start.
// Kept: `write!` says what stands in its writer only where it answers `Ok`, and no clause says that it does.
fn digits_back(buffer: &mut [u8; 20], n: u64) -> usize
    ensures { (result ≤ 20) × (drop result buffer.new ≡ decimal n) }
{
    let mut rest = n;
    for at in (0..20).rev() {
        buffer[at] = digit(rest % 10);
        rest /= 10;
        if rest == 0 {
            return at;
        }
    }
    0
}

// Writes the digits of n.
pub fn push_number(out: &mut Writer<u8>, n: u64)
    requires { Fits (decimal n) out.old }
    ensures { Appends (decimal n) out.new out.old }
{
    let mut buffer = [0u8; 20];
    let at = digits_back(&mut buffer, n);
    out.push(&buffer[at..]);
}

// Writes the digits of x, behind a minus if x is negative.
pub fn push_signed(out: &mut Writer<u8>, x: i64)
    requires { Fits (decimal_z x) out.old }
    ensures { Appends (decimal_z x) out.new out.old }
{
    if x < 0 {
        out.push(b"-");
    }
    push_number(out, x.unsigned_abs());
}
