// Loops over one vector, which may be a row of a matrix.
ghost use Rattle.std.specs.Prelude.{◌≡◌, cond, length};
ghost use Rattle.std.specs.Float.Ieee.{lt};
ghost use Rattle.kernel.specs.Lists.{tabulate};
ghost use Rattle.kernel.specs.Number.{add, sub, mul, abs, finite};
ghost use Rattle.dense.specs.Matrix.{nth, dot_product, norm, max_abs, finite_entries};

use crate::fill::combine;
use crate::sum::sum_from;
use kernel::number::sqrt;

// Adds s times x to y, entry by entry.
pub fn add_scaled(s: f64, x: &[f64], y: &mut [f64])
    requires { length x.now ≡ length y.old }
    ensures { y.new ≡ tabulate (length y.old) (λ j. add (nth y.old j) (mul s (nth x.now j))) }
{
    combine(|u, v| u + s * v, x, y);
}

// Takes s times x from y, entry by entry. It differs from `add_scaled` by the closure alone.
pub fn subtract_scaled(s: f64, x: &[f64], y: &mut [f64])
    requires { length x.now ≡ length y.old }
    ensures { y.new ≡ tabulate (length y.old) (λ j. sub (nth y.old j) (mul s (nth x.now j))) }
{
    combine(|u, v| u - s * v, x, y);
}

// The inner product of x and y.
pub fn dot(x: &[f64], y: &[f64]) -> f64
    requires { length x.now ≡ length y.now }
    ensures { result ≡ dot_product x.now y.now (length x.now) }
{
    sum_from(0.0, x.len(), |j| x[j] * y[j])
}

// The root of the sum of the squares of x.
pub fn norm(x: &[f64]) -> f64
    ensures { result ≡ norm x.now (length x.now) }
{
    sqrt(dot(x, x))
}

// x, which has no sign, or |y| where that is greater: both tests seldom hold, where the sign of y is any.
#[tactic(auto, using(crate::proofs::Signs::raised_either))]
fn raised(x: f64, y: f64) -> f64
    requires { abs x ≡ x }
    ensures { result ≡ cond (lt x (abs y)) (abs y) x }
{
    if y > x {
        return y;
    }
    if -y > x {
        return -y;
    }
    x
}

// The greatest absolute value among the entries of x.
#[tactic(auto, using(crate::proofs::Signs::max_abs_has_no_sign), unfolding(crate::specs::Matrix::max_abs))]
pub fn max_abs(x: &[f64]) -> f64
    ensures { result ≡ max_abs x.now (length x.now) }
{
    let mut g = 0.0;
    for y in x {
        g = raised(g, *y);
    }
    g
}

// Whether x is a number and no infinity: std's test, under the kernel's word for it.
#[tactic(auto, using(crate::proofs::Finite::told_finite))]
pub fn is_finite(x: f64) -> bool
    ensures { result ≡ finite x }
{
    x.is_finite()
}

// Whether the entries of x are finite.
#[tactic(auto, using(crate::proofs::Finite::finite_more, crate::proofs::Finite::finite_never), unfolding(crate::specs::Matrix::finite_entries))]
pub fn are_finite(x: &[f64]) -> bool
    ensures { result ≡ finite_entries x.now (length x.now) }
{
    for y in x {
        if !is_finite(*y) {
            return false;
        }
    }
    true
}
