// Constants that several crates use, each once: the limits in the source's tests, which specs/Constants spells rel_tol, min_scale and so
// on, and bit patterns.
ghost use Rattle.std.specs.Prelude.{◌≡◌};
ghost use Rattle.kernel.specs.Constants.{infinity};

// `NOLAN_REL_TOL`: what is below this part of its scale counts as zero.
pub const REL_TOL: f64 = 1e-14;

// `NOLAN_MIN_SCALE`: a row whose norm is below this has no pivot.
pub const MIN_SCALE: f64 = 1e-150;

// Past this theta a rotation takes the limit of its tangent.
pub const FAR_THETA: f64 = 1e150;

// `f64::MIN_POSITIVE`, the least positive normal number.
pub const MIN_POSITIVE: f64 = f64::MIN_POSITIVE;

// A product whose norm is below this vanishes, and a round of the power iteration that reaches it gives 0.0.
pub const VANISHING: f64 = 1e-30;

// A norm below this is taken for 0.
pub const LEAST_NORM: f64 = 1e-300;

// The bit pattern of +infinity: below it are the finite numbers without a sign, above it the NaNs.
pub const INFINITY_BITS: u64 = 0x7FF0_0000_0000_0000;

// The bit of the sign.
pub const SIGN_BIT: u64 = 0x8000_0000_0000_0000;

// +infinity.
pub fn infinity() -> f64
    ensures { result ≡ infinity }
{
    f64::INFINITY
}
