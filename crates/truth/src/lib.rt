// Numbers as truth values, and their comparisons: a number that is not 0 is true, and a result is ONE or 0. Each call is equal to its definition in `meaning`, specs/Number.antt.
#![tactic(auto)]

ghost use Rattle.std.specs.Prelude.{◌≡◌, not, ◌&&◌, ◌||◌};
ghost use Rattle.std.specs.Int.Signed.{le_z, lt_z};
ghost use Rattle.meaning.specs.Number as point;

use words::ONE;

// Nonzero is true.
// Kept: this and `of_bool` are definitions of `meaning` by name, which the calls below are made of; a conversion of the library says neither.
pub fn as_bool(x: i64) -> bool
    ensures { result ≡ point.truth x }
{
    x != 0
}

// True is ONE, false 0.
fn of_bool(b: bool) -> i64
    ensures { result ≡ point.of_bool b }
{
    if b { ONE } else { 0 }
}

// ONE where x is 0, else 0.
pub fn not(x: i64) -> i64
    ensures { result ≡ point.of_bool (not (point.truth x)) }
{
    of_bool(!as_bool(x))
}

// ONE where neither is 0, else 0.
pub fn and(x: i64, y: i64) -> i64
    ensures { result ≡ point.of_bool (point.truth x && point.truth y) }
{
    of_bool(as_bool(x) && as_bool(y))
}

// ONE where one of the two is not 0, else 0.
pub fn or(x: i64, y: i64) -> i64
    ensures { result ≡ point.of_bool (point.truth x || point.truth y) }
{
    of_bool(as_bool(x) || as_bool(y))
}

// ONE where x is at most y, else 0.
// Kept: this, `lt` and `ne` are three functions since C calls each by its name.
pub fn le(x: i64, y: i64) -> i64
    ensures { result ≡ point.of_bool (le_z x y) }
{
    of_bool(x <= y)
}

// ONE where x is below y, else 0.
pub fn lt(x: i64, y: i64) -> i64
    ensures { result ≡ point.of_bool (lt_z x y) }
{
    of_bool(x < y)
}

// ONE where x is not y, else 0.
pub fn ne(x: i64, y: i64) -> i64
    ensures { result ≡ point.of_bool (not (point.eq_z x y)) }
{
    of_bool(x != y)
}
