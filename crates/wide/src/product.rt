// The whole product of two words.
ghost use Rattle.std.specs.Prelude.{◌≡◌, ◌+◌, ◌*◌, ◌^◌};

use words::wrapping_mul_u64;

// Two words, the upper and the lower.
// Kept: two words in place of u128 are a rule of the project.
#[derive(Clone, Copy, Debug, PartialEq, Eq, PartialOrd, Ord)]
pub struct Wide {
    pub hi: u64,
    pub lo: u64,
}

// a times b: the upper word by long multiplication in base 2^32, with its carries, and the lower one modulo 2^64.
pub fn full(a: u64, b: u64) -> Wide
    ensures { result.hi * 2 ^ 64 + result.lo ≡ a * b }
{
    let a0 = a % 4294967296;
    let a1 = a / 4294967296;
    let b0 = b % 4294967296;
    let b1 = b / 4294967296;
    let low = a0 * b0;
    let mid = a1 * b0 + low / 4294967296;
    let next = a0 * b1 + mid % 4294967296;
    let hi = a1 * b1 + mid / 4294967296 + next / 4294967296;
    let lo = wrapping_mul_u64(a, b);
    Wide { hi, lo }
}
