// The root of a positive double as one of whole numbers: an exact test of a guess, and a digit recurrence where the test
// fails. Only these two are relied on; nothing is claimed of the guess.
ghost use Rattle.std.specs.Prelude.{◌≡◌, true, ℕ, ◌+◌, ◌*◌, ◌/◌, ◌%◌, ◌^◌, ◌≤◌, ◌<◌};
ghost use Rattle.std.specs.Float.{binary64};
ghost use Rattle.std.specs.Float.Ieee.{to_bits};
ghost use Rattle.kernel.specs.Sqrt.{scaled_bits, root_pattern};
ghost use Rattle.kernel.specs.Private.{Nearest, RootOf};

// 2 ^ 52, the weight of a significand's leading digit and of the exponent's field.
const LEAD: u64 = 0x10_0000_0000_0000;

// Whether r is the whole number nearest to the root of w * 2 ^ 52; where it is far off the answer is no, untried.
// With r = a * 2 ^ 27 + b, w * 2 ^ 52 - r * r is ((w - 4 * a * a) * 2 ^ 24 - a * b) * 2 ^ 28 - b * b; an offset of 2 to w
// keeps the numbers above 0.
fn is_nearest(w: u64, r: u64) -> bool
    requires { (w < 2 ^ 54) × (r < 2 ^ 53) }
    ensures { result ≡ true → Nearest w r }
{
    let a = r / 0x800_0000;
    let b = r % 0x800_0000;
    let high = 4 * a * a;
    if w + 2 < high {
        return false;
    }
    let rest = w + 2 - high;
    if 0x4000_0000 <= rest {
        return false;
    }
    let cross = a * b;
    let sum = rest * 0x100_0000;
    if sum < cross {
        return false;
    }
    let middle = sum - cross;
    if 0x8_0000_0000 <= middle {
        return false;
    }
    let left = middle * 0x1000_0000;
    let right = b * b + 0x20_0000_0000_0000;
    if left + r <= right {
        return false;
    }
    left <= right + r
}

// The whole number nearest to the root of w * 2 ^ 52, digit by digit: before the digit t, rest * t is what the square of
// root leaves of w * 2 ^ 52.
fn by_digits(w: u64) -> u64
    requires { (2 ^ 52 ≤ w) × (w < 2 ^ 54) }
    ensures { Nearest w result }
{
    let mut root = 0;
    let mut rest = w;
    let mut t = LEAD;
    // Each digit goes on from the one before, and the turn is named for the invariant alone. Of a fold of root, rest and
    // t it stayed open that its closure may be called at each turn, and what it gives.
    for turn in 0..52u64 {
        let step = 2 * root + t;
        if step <= rest {
            rest = 2 * (rest - step);
            root = root + t;
        } else {
            rest = 2 * rest;
        }
        t = t / 2;
    }
    if rest <= root {
        return root;
    }
    if rest <= 3 * root + 2 {
        return root + 1;
    }
    root + 2
}

// The bit pattern of the root of x, where x * 2 ^ 1074 is (2 ^ 52 + digits) * 2 ^ (52 + e): half of the exponent and the
// significand. x is scaled by 2 ^ 1074.
#[tactic(auto, using(crate::proofs::Roots::RootPatterns::root_of))]
fn pattern(digits: u64, e: u64) -> u64
    requires { (digits < 2 ^ 52) × (e < 3069) }
    ensures { RootOf digits e result }
{
    e / 2 * LEAD + by_digits((LEAD + digits) * (1 + e % 2))
}

// The bit pattern of the root of a double without a leading digit, whose bit pattern is b: moved up until it has one.
fn subnormal_pattern(b: u64) -> u64
    requires { (0 < b) × (b < 2 ^ 52) }
    ensures { (result ≡ root_pattern (scaled_bits b)) × (result < 0x7FF0_0000_0000_0000) }
{
    let shift = b.leading_zeros() - 11;
    let m = b << shift;
    pattern(m - LEAD, 1022 - u64::from(shift))
}

// The bit pattern of the root of the finite double above 0 with the bit pattern b.
#[tactic(auto, using(crate::proofs::Roots::RootPatterns::normal_argument))]
pub(crate) fn root_pattern(b: u64) -> u64
    requires { (0 < b) × (b < 0x7FF0_0000_0000_0000) }
    ensures { (result ≡ root_pattern (scaled_bits b)) × (result < 0x7FF0_0000_0000_0000) }
{
    if b < LEAD {
        return subnormal_pattern(b);
    }
    pattern(b % LEAD, b / LEAD + 1021)
}

// Whether g is the root of the finite double above 0 with the bit pattern b; where b has no leading digit, or g is far off,
// the answer is no, untried.
#[tactic(auto, using(crate::proofs::Doubles::Patterns::equals_itself, crate::proofs::Roots::RootPatterns::root_of, crate::proofs::Roots::RootPatterns::normal_argument))]
pub(crate) fn is_root(b: u64, g: f64) -> bool
    requires { (0 < b) × (b < 0x7FF0_0000_0000_0000) }
    ensures { result ≡ true → to_bits binary64 g ≡ root_pattern (scaled_bits b) }
{
    if b < LEAD {
        return false;
    }
    if g != g {
        return false;
    }
    let p = f64::to_bits(g);
    let e = b / LEAD + 1021;
    let least = e / 2 * LEAD;
    if p < least {
        return false;
    }
    let r = p - least;
    if 2 * LEAD <= r {
        return false;
    }
    is_nearest((LEAD + b % LEAD) * (1 + e % 2), r)
}
