// A word is 64 bits, as a u64; a number is an i64, from MIN to MAX, and its bits are a word. Sums and products of words wrap at 2^64, and so do those of numbers.
// Quotients go toward 0. Special is MIN: its negative and its quotient by -1 wrap to MIN.
#![tactic(auto)]

ghost use Rattle.std.specs.Prelude.{◌≡◌, ◌≢◌, ◌*◌, ◌%◌, ◌^◌, pos, ◌-ℤ◌, ◌*ℤ◌, ◌≤ℤ◌, int_div};
ghost use Rattle.meaning.specs.Number as point;
ghost use Rattle.laws.proofs.Wrapping.{low};

pub const MIN: i64 = i64::MIN;

pub const MAX: i64 = i64::MAX;

// The number after MIN, the least that has a positive counterpart.
pub const MINUS_MAX: i64 = -MAX;

// One unit, in thousandths.
pub const ONE: i64 = 1000;

// 2^63, the bits of MIN, and its magnitude.
pub const SIGN: u64 = 9223372036854775808;

// 2^32, how many half words there are.
const HALVES: u64 = 4294967296;

// The two's complement bits of x.
// Kept: this and the calls below say what std's methods give in the words of `meaning`, once for all callers.
pub fn bits(x: i64) -> u64
    ensures { result ≡ low x }
{
    x.cast_unsigned()
}

// The number with the bits w.
pub fn of_bits(w: u64) -> i64
    ensures { result ≡ point.wrap (pos w) }
{
    w.cast_signed()
}

// How far e is above s, exact.
pub fn distance(s: i64, e: i64) -> u64
    requires { s ≤ℤ e }
    ensures { pos result ≡ e -ℤ s }
{
    bits(e).wrapping_sub(bits(s))
}

// a times b modulo 2^64, over half words: the product of the high halves falls out, and so do the high halves of the mixed products.
// Kept: a multiply over half words is a rule of the project.
pub fn wrapping_mul_u64(a: u64, b: u64) -> u64
    ensures { result ≡ a * b % 2 ^ 64 }
{
    let a0 = a % HALVES;
    let a1 = a / HALVES;
    let b0 = b % HALVES;
    let b1 = b / HALVES;
    let upper = a1 * b0;
    let other = a0 * b1;
    let lower = a0 * b0;
    let mixed = upper.wrapping_add(other);
    lower.wrapping_add(mixed % HALVES * HALVES)
}

// The product of x and y as integers, wrapped.
pub fn wrapping_mul(x: i64, y: i64) -> i64
    ensures { result ≡ point.wrap (x *ℤ y) }
{
    of_bits(wrapping_mul_u64(bits(x), bits(y)))
}

// The negative of x; that of MIN is MIN.
pub fn neg(x: i64) -> i64
    ensures { result ≡ point.negative x }
{
    x.wrapping_neg()
}

// x divided by ONE, toward 0.
pub fn milli(x: i64) -> i64
    ensures { result ≡ point.thousandth x }
{
    x / ONE
}

// x divided by y toward 0, wrapped: MIN by -1 is MIN.
pub fn quot(x: i64, y: i64) -> i64
    requires { y ≢ pos 0 }
    ensures { result ≡ point.wrap (int_div x y) }
{
    x.wrapping_div(y)
}
