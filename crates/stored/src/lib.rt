// What stored bytes say: lengths, numbers, and what a call is to answer; and whether an answer is that one. A stored number has eight bytes, the least first,
// in two's complement.
#![tactic(auto)]

ghost use Rattle.std.specs.Prelude.{◌≡◌, ◌+◌, ◌*◌, ◌↔◌, ◌&&◌, IsTrue, eqb, pos};
ghost use Rattle.meaning.specs.Number.{wrap};
ghost use Rattle.stored.specs.Expected.{Expected, ExpectedReply, ExpectedMember, Reads, Replies, StoredBy};
ghost use Rattle.stored.specs.Stored.{bits_at};

use refusals::{Cause, Trouble};
use replies::Written;

// Two bytes as a length, the least first.
pub fn pair(low: u8, high: u8) -> usize
    ensures { result ≡ low + 256 * high }
{
    usize::from(u16::from_le_bytes([low, high]))
}

// The number that eight bytes hold.
pub fn number_in(b: &[u8; 8]) -> i64
    ensures { result ≡ wrap (pos (bits_at 8 0 b.now)) }
{
    words::of_bits(u64::from_le_bytes(*b))
}

// What a call on a sheet is to answer, as it is stored: its kind, 0 a success, 1 a finding or a stop, 2 a refusal; its number, 0 of a success; and its line, or the
// line count of a success.
// Kept: numbers for the kind and the cause, no plainer as enums, since a file holds any three; `answer` reads them.
#[derive(Clone, Copy, Debug, PartialEq, Eq)]
pub struct Verdict {
    pub kind: u8,
    pub number: u8,
    pub line: usize,
}

// A verdict as it is stored, its line in two bytes.
pub fn verdict_in(kind: u8, number: u8, low: u8, high: u8) -> Verdict
    ensures { (result.kind ≡ kind) × (result.number ≡ number) × (result.line ≡ low + 256 * high) }
{
    Verdict {
        kind,
        number,
        line: pair(low, high),
    }
}

// Whether an answer of this kind, number and line is the one expected.
pub fn verdict_as_expected(e: Verdict, kind: u8, number: u8, line: usize) -> bool
    ensures { result ≡ ((eqb e.kind kind && eqb e.number number) && eqb e.line line) }
{
    (e.kind == kind) & (e.number == number) & (e.line == line)
}

impl Verdict {
    // Whether the answer is the one that is stored.
    pub fn expects(self, answer: Result<usize, Trouble>) -> bool
        ensures { IsTrue result ↔ StoredBy self.kind self.number self.line answer }
    {
        match answer {
            Ok(n) => verdict_as_expected(self, 0, 0, n),
            Err(Trouble::Stopped(cause, line)) => {
                verdict_as_expected(self, 1, u8::from(cause), line)
            }
            Err(Trouble::Refused(cause, line)) => {
                verdict_as_expected(self, 2, u8::from(cause), line)
            }
        }
    }

    // The answer that is stored so; none where no answer is.
    pub fn answer(self) -> Option<Result<usize, Trouble>>
        ensures { Reads self.kind self.number self.line result }
    {
        if self.kind == 0 && self.number == 0 {
            return Some(Ok(self.line));
        }
        let cause = Cause::try_from(self.number).ok()?;
        match self.kind {
            1 => Some(Err(Trouble::Stopped(cause, self.line))),
            2 => Some(Err(Trouble::Refused(cause, self.line))),
            _ => None,
        }
    }
}

// What a set call is to answer, as it is stored: 0 and a value, or the number of a refusal; none where no answer is.
pub fn reply_in<T: Copy>(number: u8, value: T) -> Option<Result<T, Cause>>
    ensures { Replies number value result }
{
    if number == 0 {
        return Some(Ok(value));
    }
    Some(Err(Cause::try_from(number).ok()?))
}

// Whether the answer of a set call is the one expected: a refusal by its number, success by its value.
pub fn as_expected<T: PartialEq + Copy>(answer: Result<T, Cause>, number: u8, value: T) -> bool
    ensures { IsTrue result ↔ Expected T.eq answer number value }
{
    match answer {
        Ok(v) => number == 0 && v == value,
        Err(cause) => number == u8::from(cause),
    }
}

// The same of what a set call writes: success by its count and flag.
pub fn reply_as_expected(
    reply: Result<Written, Cause>,
    number: u8,
    count: usize,
    flag: bool,
) -> bool
    ensures { IsTrue result ↔ ExpectedReply reply number count flag }
{
    as_expected(reply, number, Written { count, flag })
}

// The same of what nearest answers: success by its member.
pub fn setpoint_as_expected(answer: Result<i64, Cause>, number: u8, member: i64) -> bool
    ensures { IsTrue result ↔ ExpectedMember answer number member }
{
    as_expected(answer, number, member)
}
