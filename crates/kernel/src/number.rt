// The number helpers of document 01, on f64.
mod root;

ghost use Rattle.std.specs.Prelude.{◌≡◌};
ghost use Rattle.kernel.specs.Number.{abs, max, value, constant};
ghost use Rattle.kernel.specs.Sqrt.{sqrt};
ghost use Rattle.kernel.specs.Estimate.{reciprocal_root};

use crate::constants;

// Less half of a number's bit pattern this is the pattern of a number within 4 % of one over its root.
const RECIPROCAL: u64 = 0x5FE6_EB50_C7B5_37A9;

// x without its sign.
pub fn abs(x: f64) -> f64
    ensures { result ≡ abs x }
{
    if x < 0.0 {
        return -x;
    }
    if x == 0.0 {
        return 0.0;
    }
    x
}

// The greater of a and b; the other where one is a NaN, and a where they are equal.
#[tactic(auto, using(crate::proofs::Doubles::Patterns::against_itself), unfolding(crate::specs::Number::max))]
pub fn max(a: f64, b: f64) -> f64
    ensures { result ≡ max a b }
{
    if a < b {
        return b;
    }
    if a != a {
        return b;
    }
    a
}

// The number that x stands for: itself.
pub fn value(x: f64) -> f64
    ensures { result ≡ value x }
{
    x
}

// The number c as a constant: itself. As `value` it is a name that C calls.
pub fn constant(c: f64) -> f64
    ensures { result ≡ constant c }
{
    c
}

// An estimate of one over the root of x, to some 25 binary digits where x is a normal number above 0: a guess at a root starts
// from it, and no result depends on it. Half of a number's bit pattern, taken from a constant, is within 4 % of it; the polynomial
// is near to t ^ (-1/2) for t from 0.93 to 1.07.
#[tactic(auto, using(crate::proofs::Doubles::Patterns::against_itself, std::proofs::lemmas::Float::not_nan_f64_bits), unfolding(crate::specs::Estimate::reciprocal_root))]
pub fn reciprocal_root(x: f64) -> f64
    ensures { result ≡ reciprocal_root x }
{
    if x != x {
        return x;
    }
    let bits = f64::to_bits(x);
    if constants::INFINITY_BITS < bits {
        return x;
    }
    let rough = f64::from_bits(RECIPROCAL - bits / 2);
    let t = x * rough * rough;
    let tt = t * t;
    rough * (2.462735353900164 - 3.2870044520154824 * t)
        + rough * tt * (2.9595980131876254 - 1.4091257683923304 * t + 0.2737968520139008 * tt)
}

// The first 26 binary digits of x, a number above 0.
#[tactic(auto, using(crate::proofs::Doubles::Patterns::equal_number, std::proofs::lemmas::Float::not_nan_f64_bits))]
fn head(x: f64) -> f64 {
    if x != x {
        return x;
    }
    let bits = f64::to_bits(x);
    if constants::INFINITY_BITS < bits {
        return x;
    }
    f64::from_bits(bits - bits % 0x800_0000)
}

// A guess at the root of x from estimates of the root and of one over it: the square of the root's head is exact, and what it
// leaves of x gives the rest of the root, to the second order.
fn guess(x: f64, root: f64, reciprocal: f64) -> f64 {
    let front = head(root);
    let rest = x - front * front;
    let h = 0.5 * reciprocal;
    front + rest * h * (2.0 - front * reciprocal - rest * (h * h))
}

// The square root of IEEE 754, rounded to the nearest double, where estimates of it and of one over it are at hand: any two
// numbers do, and near ones make it quick.
#[tactic(auto, using(crate::proofs::Doubles::Patterns::equal_number, std::proofs::lemmas::Float::not_nan_f64_bits, crate::proofs::Roots::Tested::tested))]
pub fn sqrt_near(x: f64, root: f64, reciprocal: f64) -> f64
    ensures { result ≡ sqrt x }
{
    if x != x {
        return x;
    }
    if x == 0.0 {
        return x;
    }
    if x < 0.0 {
        return 0.0 / 0.0;
    }
    let bits = f64::to_bits(x);
    if bits == constants::INFINITY_BITS {
        return x;
    }
    let g = guess(x, root, reciprocal);
    if root::is_root(bits, g) {
        return g;
    }
    f64::from_bits(root::root_pattern(bits))
}

// The square root of IEEE 754, rounded to the nearest double.
pub fn sqrt(x: f64) -> f64
    ensures { result ≡ sqrt x }
{
    let y = reciprocal_root(x);
    sqrt_near(x, x * y, y)
}
