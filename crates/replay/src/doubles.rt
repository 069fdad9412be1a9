// Doubles by their bit patterns.
ghost use Rattle.std.specs.Prelude.{◌≡◌, ◌*◌, ◌<◌, ℕ, from_bits};
ghost use Rattle.std.specs.Float.{binary64};
ghost use Rattle.kernel.specs.Bytes.{word};
ghost use Rattle.replay.specs.Replay.{entry, same, all_same};

use crate::records::number;
use kernel::constants;
use std::array;

// The double with the bit pattern p; of a NaN's pattern, a NaN.
#[tactic(auto, using(crate::proofs::Laws::of_nan_pattern, crate::proofs::Laws::no_nan_pattern))]
pub fn double(p: u64) -> f64
    ensures { result ≡ from_bits binary64 p }
{
    if constants::INFINITY_BITS < p % constants::SIGN_BIT {
        return f64::NAN;
    }
    f64::from_bits(p)
}

// The first N numbers of s as doubles, a zero for each that is not all there.
pub fn first_doubles<const N: usize>(s: &[u8]) -> [f64; N]
    ensures { (i : ℕ) → i < N → entry result i ≡ from_bits binary64 (word s.now (8 * i)) }
{
    array::from_fn(|i| double(number(s, i)))
}

// Whether x is the double with the bit pattern p: any NaN is any NaN.
#[tactic(auto, using(crate::proofs::Laws::same_nan, crate::proofs::Laws::same_number, kernel::proofs::Doubles::Patterns::equal_number))]
pub fn is_same(x: f64, p: u64) -> bool
    ensures { result ≡ same x p }
{
    if x != x {
        return constants::INFINITY_BITS < p % constants::SIGN_BIT;
    }
    f64::to_bits(x) == p
}

// Whether every value is the double whose bit pattern stands at its place in s, eight bytes to each, low byte first.
#[tactic(auto, using(crate::proofs::Same::turns), unfolding(crate::specs::Replay::all_same))]
pub fn are_same(values: &[f64], s: &[u8]) -> bool
    ensures { result ≡ all_same values.now s.now }
{
    for (i, x) in values.iter().enumerate() {
        if s.len() / 8 <= i || !is_same(*x, number(s, i)) {
            return false;
        }
    }
    true
}
