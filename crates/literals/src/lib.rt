// Literals and registers from their bytes: digits, decimals, thousandths.
// Past the end of a text stands byte 0, which is no byte of the grammar.
#![tactic(auto)]

ghost use Rattle.std.specs.Prelude.{◌≡◌, ◌+◌, ◌-◌, ◌*◌, ◌≤◌, min, get_or, drop, take};
ghost use Rattle.meaning.specs.Reading.{got, map_got, digits as digits_of, needless as needless_in, scale as scale_of, signed, unsigned as unsigned_at, literal, register};
ghost use Rattle.literals.specs.Capped.{cap, capped};
ghost use Rattle.literals.specs.Answer.{got_of, held};

use limits::REGISTERS;
use words::SIGN;

// What a reader found at the front of a text, and how many bytes it takes.
#[derive(Clone, Copy, Debug, PartialEq, Eq)]
pub struct Got<T> {
    pub value: T,
    pub len: usize,
}

// The byte at i, 0 past the end.
// Kept: a byte in place of an `Option`, since the definitions read a text so (`get_or t i 0`), and each caller asks just whether it is one of the grammar's.
pub fn at(text: &[u8], i: usize) -> u8
    ensures { result ≡ get_or text.now i 0 }
{
    text.get(i).copied().unwrap_or(0)
}

// The part from k on, empty if k is past the end.
pub fn tail(text: &[u8], k: usize) -> &[u8]
    ensures { result.now ≡ drop k text.now }
{
    &text[text.len().min(k)..]
}

// The first n bytes, or all if there are fewer.
pub fn first(text: &[u8], n: usize) -> &[u8]
    ensures { result.now ≡ take n text.now }
{
    &text[..text.len().min(n)]
}

// How many digits the text begins with.
fn digits(text: &[u8]) -> usize
    ensures { result ≡ digits_of text.now }
{
    text.iter().take_while(|b| b.is_ascii_digit()).count()
}

// Where a magnitude is held: greater ones are beyond MIN..MAX all the same.
const CAP: u64 = SIGN + 1;

// One more digit, written by the byte b, held at the cap.
fn step(v: u64, b: u8) -> u64
    ensures { result ≡ min cap (v * 10 + (b - 48)) }
{
    v.saturating_mul(10)
        .saturating_add(u64::from(b.saturating_sub(b'0')))
        .min(CAP)
}

// The number that the digits write behind a, held at the cap.
fn number(a: u64, text: &[u8]) -> u64
    ensures { result ≡ capped a text.now }
{
    text.iter().fold(a, |v, b| step(v, *b))
}

// Thousandths of a unit of the last of d decimals: ten to the power of three less d.
fn scale(d: usize) -> u64
    ensures { result ≡ scale_of d }
{
    10u64.pow(3 - d.min(3) as u32)
}

// v in thousandths, held at the cap.
fn scaled(v: u64, d: usize) -> u64
    ensures { result ≡ min cap (v * scale_of d) }
{
    v.saturating_mul(scale(d)).min(CAP)
}

// The number of a sign and a magnitude, none beyond MIN..MAX.
fn finish(negated: bool, m: u64) -> Option<i64>
    ensures { result ≡ held (signed negated m) }
{
    if negated {
        0i64.checked_sub_unsigned(m)
    } else {
        i64::try_from(m).ok()
    }
}

// The first of i digits is a needless 0.
fn needless(text: &[u8], i: usize) -> bool
    ensures { result ≡ needless_in text.now i }
{
    1 < i && at(text, 0) == b'0'
}

// A literal without its sign, which took o bytes.
fn unsigned(negated: bool, o: usize, text: &[u8]) -> Option<Got<Option<i64>>>
    requires { o ≤ 1 }
    ensures { got_of result ≡ map_got held (unsigned_at negated o text.now (digits_of text.now)) }
{
    let i = digits(text);
    if i == 0 || needless(text, i) {
        return None;
    }
    let v = number(0, first(text, i));
    if at(text, i) != b'.' {
        return Some(Got {
            value: finish(negated, scaled(v, 0)),
            len: o + i,
        });
    }
    let t = tail(text, i + 1);
    let d = digits(t);
    if d == 0 || 3 < d {
        return None;
    }
    Some(Got {
        value: finish(negated, scaled(number(v, first(t, d)), d)),
        len: o + i + 1 + d,
    })
}

// A literal: exact thousandths, however many digits; none inside if they are beyond MIN..MAX.
pub fn read_literal(text: &[u8]) -> Option<Got<Option<i64>>>
    ensures { got_of result ≡ map_got held (literal text.now) }
{
    if at(text, 0) == b'-' {
        unsigned(true, 1, tail(text, 1))
    } else {
        unsigned(false, 0, text)
    }
}

// A register's number: digits without a needless leading 0, of a register that there is.
pub fn read_register(text: &[u8]) -> Option<Got<usize>>
    ensures { got_of result ≡ register text.now }
{
    let i = digits(text);
    if i == 0 || needless(text, i) {
        return None;
    }
    let v = number(0, first(text, i));
    if v < (REGISTERS as u64) {
        Some(Got {
            value: v as usize,
            len: i,
        })
    } else {
        None
    }
}
