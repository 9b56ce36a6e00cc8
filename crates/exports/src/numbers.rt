// Numbers: each function is one call of the function of that name in `number`. A number is an i64, a count of thousandths.
ghost use Rattle.std.specs.Prelude.{◌≡◌, not, ◌&&◌, ◌||◌};
ghost use Rattle.std.specs.Int.Signed.{le_z, lt_z};
ghost use Rattle.meaning.specs.Number as point;
ghost use Rattle.answers.specs.Answers.{maybe_for};

use answers::Maybe;

// The negative of x; that of MIN is MIN.
#[unsafe(no_mangle)]
pub extern "C" fn juwenfo_number_neg(x: i64) -> i64
    ensures { result ≡ point.negative x }
{
    number::neg(x)
}

// The magnitude of x; that of MIN is MIN.
#[unsafe(no_mangle)]
pub extern "C" fn juwenfo_number_abs(x: i64) -> i64
    ensures { result ≡ point.absolute x }
{
    number::abs(x)
}

// The sum of x and y, wrapped.
#[unsafe(no_mangle)]
pub extern "C" fn juwenfo_number_add(x: i64, y: i64) -> i64
    ensures { result ≡ point.sum x y }
{
    number::add(x, y)
}

// The difference of x and y, wrapped.
#[unsafe(no_mangle)]
pub extern "C" fn juwenfo_number_sub(x: i64, y: i64) -> i64
    ensures { result ≡ point.difference x y }
{
    number::sub(x, y)
}

// The product of x and y as thousandths: wrapped, then divided by 1000.
#[unsafe(no_mangle)]
pub extern "C" fn juwenfo_number_mul(x: i64, y: i64) -> i64
    ensures { result ≡ point.product x y }
{
    number::mul(x, y)
}

// The quotient of x and y as thousandths; a divisor 0 has none.
#[unsafe(no_mangle)]
pub extern "C" fn juwenfo_number_div(x: i64, y: i64) -> Maybe
    ensures { result ≡ maybe_for (point.quotient x y) }
{
    number::div(x, y).into()
}

// The remainder of x by y, with the sign of x; a divisor 0 has none.
#[unsafe(no_mangle)]
pub extern "C" fn juwenfo_number_rem(x: i64, y: i64) -> Maybe
    ensures { result ≡ maybe_for (point.remainder x y) }
{
    number::rem(x, y).into()
}

// The number after x; there is none after MAX.
#[unsafe(no_mangle)]
pub extern "C" fn juwenfo_number_next(x: i64) -> Maybe
    ensures { result ≡ maybe_for (point.next x) }
{
    number::next(x).into()
}

// The number before x; there is none before MIN.
#[unsafe(no_mangle)]
pub extern "C" fn juwenfo_number_prev(x: i64) -> Maybe
    ensures { result ≡ maybe_for (point.prev x) }
{
    number::prev(x).into()
}

// Nonzero is true.
#[unsafe(no_mangle)]
pub extern "C" fn juwenfo_number_as_bool(x: i64) -> bool
    ensures { result ≡ point.truth x }
{
    number::as_bool(x)
}

// 1000 where x is 0, else 0.
#[unsafe(no_mangle)]
pub extern "C" fn juwenfo_number_not(x: i64) -> i64
    ensures { result ≡ point.of_bool (not (point.truth x)) }
{
    number::not(x)
}

// 1000 where neither is 0, else 0.
#[unsafe(no_mangle)]
pub extern "C" fn juwenfo_number_and(x: i64, y: i64) -> i64
    ensures { result ≡ point.of_bool (point.truth x && point.truth y) }
{
    number::and(x, y)
}

// 1000 where one of the two is not 0, else 0.
#[unsafe(no_mangle)]
pub extern "C" fn juwenfo_number_or(x: i64, y: i64) -> i64
    ensures { result ≡ point.of_bool (point.truth x || point.truth y) }
{
    number::or(x, y)
}

// 1000 where x is at most y, else 0.
#[unsafe(no_mangle)]
pub extern "C" fn juwenfo_number_le(x: i64, y: i64) -> i64
    ensures { result ≡ point.of_bool (le_z x y) }
{
    number::le(x, y)
}

// 1000 where x is below y, else 0.
#[unsafe(no_mangle)]
pub extern "C" fn juwenfo_number_lt(x: i64, y: i64) -> i64
    ensures { result ≡ point.of_bool (lt_z x y) }
{
    number::lt(x, y)
}

// 1000 where x is not y, else 0.
#[unsafe(no_mangle)]
pub extern "C" fn juwenfo_number_ne(x: i64, y: i64) -> i64
    ensures { result ≡ point.of_bool (not (point.eq_z x y)) }
{
    number::ne(x, y)
}
