// A number is an i64, a count of thousandths from MIN to MAX, and its point operations wrap at these ends. Special are MIN, which has no positive
// counterpart and is its own negative and magnitude, and what has no answer: a divisor 0, `next` at MAX, `prev` at MIN. Each call is equal to its definition in `meaning`, specs/Number.antt.
#![tactic(auto)]

ghost use Rattle.std.specs.Prelude.{◌≡◌};
ghost use Rattle.meaning.specs.Number as point;

pub use truth::{and, as_bool, le, lt, ne, not, or};
pub use words::{MAX, MIN, ONE, neg};
use words::{milli, quot, wrapping_mul};

// The magnitude of x; that of MIN is MIN.
// Kept: this, `add`, `sub`, `next` and `prev` are point operations by name, a method of the library each, and say what it gives in the words of `meaning`.
pub fn abs(x: i64) -> i64
    ensures { result ≡ point.absolute x }
{
    x.wrapping_abs()
}

// The sum of x and y, wrapped.
pub fn add(x: i64, y: i64) -> i64
    ensures { result ≡ point.sum x y }
{
    x.wrapping_add(y)
}

// The difference of x and y, wrapped.
pub fn sub(x: i64, y: i64) -> i64
    ensures { result ≡ point.difference x y }
{
    x.wrapping_sub(y)
}

// The product of x and y as thousandths: wrapped, then divided by ONE.
pub fn mul(x: i64, y: i64) -> i64
    ensures { result ≡ point.product x y }
{
    milli(wrapping_mul(x, y))
}

// The quotient of x and y as thousandths; a divisor 0 has none.
pub fn div(x: i64, y: i64) -> Option<i64>
    ensures { result ≡ point.quotient x y }
{
    if y == 0 {
        None
    } else {
        Some(quot(wrapping_mul(ONE, x), y))
    }
}

// The remainder of x by y, with the sign of x; a divisor 0 has none.
pub fn rem(x: i64, y: i64) -> Option<i64>
    ensures { result ≡ point.remainder x y }
{
    if y == 0 {
        None
    } else {
        Some(x.wrapping_rem(y))
    }
}

// The number after x; there is none after MAX.
pub fn next(x: i64) -> Option<i64>
    ensures { result ≡ point.next x }
{
    x.checked_add(1)
}

// The number before x; there is none before MIN.
pub fn prev(x: i64) -> Option<i64>
    ensures { result ≡ point.prev x }
{
    x.checked_sub(1)
}
