// The number helpers.
ghost use Rattle.std.specs.Prelude.{◌≡◌};
ghost use Rattle.kernel.specs.Number as Number;
ghost use Rattle.kernel.specs.Sqrt as Sqrt;

use kernel::number;

// x without its sign.
#[unsafe(no_mangle)]
pub extern "C" fn pel_abs(x: f64) -> f64
    ensures { result ≡ Number.abs x }
{
    number::abs(x)
}

// The greater of a and b, as Rust's release build has it.
#[unsafe(no_mangle)]
pub extern "C" fn pel_max(a: f64, b: f64) -> f64
    ensures { result ≡ Number.max a b }
{
    number::max(a, b)
}

// The rounded square root.
#[unsafe(no_mangle)]
pub extern "C" fn pel_sqrt(x: f64) -> f64
    ensures { result ≡ Sqrt.sqrt x }
{
    number::sqrt(x)
}

// The number that x stands for.
#[unsafe(no_mangle)]
pub extern "C" fn pel_value(x: f64) -> f64
    ensures { result ≡ Number.value x }
{
    number::value(x)
}

// The number c as a constant.
#[unsafe(no_mangle)]
pub extern "C" fn pel_constant(c: f64) -> f64
    ensures { result ≡ Number.constant c }
{
    number::constant(c)
}
