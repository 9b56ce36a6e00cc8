// An i64 as the word x + 2^63, which keeps the order.
ghost use Rattle.std.specs.Prelude.{◌≡◌, ◌^◌, pos, ◌+ℤ◌};

use words::{SIGN, of_bits};

// The i64 whose word is w.
pub fn unword(w: u64) -> i64
    ensures { pos w ≡ result +ℤ pos (2 ^ 63) }
{
    of_bits(w.wrapping_sub(SIGN))
}
