// The rounds of the power iteration. A round leaves in w the product of a and its vector v, and the next begins with it.
ghost use Rattle.std.specs.Prelude.{true, ◌≡◌, length};
ghost use Rattle.kernel.specs.Number.{sub, mul};
ghost use Rattle.kernel.specs.Lists.{tabulate};
ghost use Rattle.dense.specs.Matrix.{nth, is_side, norm};
ghost use Rattle.power.specs.Power.{sign_of, is_small, eigenpair, iterated, even_vector, dominant};
ghost use Rattle.power.specs.Private.{Vectors, Multiplied, Measured, Rounded};

use crate::vector::times;
use dense::fill::fill;
use dense::sum::sum_from;
use dense::vector::{dot, norm};
use kernel::constants::VANISHING;
use kernel::number::{abs, sqrt};

// The sign of an inner product, 1.0 or -1.0.
#[tactic(auto, unfolding(crate::specs::Power::sign_of))]
fn sign_of(d: f64) -> f64
    ensures { result ≡ sign_of d }
{
    if d >= 0.0 {
        return 1.0;
    }
    -1.0
}

// The norm of w - lambda v.
fn residual(w: &[f64], lambda: f64, v: &[f64]) -> f64
    requires { length w.now ≡ length v.now }
    ensures { result ≡ norm (tabulate (length w.now) (λ i. sub (nth w.now i) (mul lambda (nth v.now i)))) (length w.now) }
{
    let square = |i: usize| {
        let diff = w[i] - lambda * v[i];
        diff * diff
    };
    sqrt(sum_from(0.0, w.len(), square))
}

// Whether the residual r of lambda is small enough.
#[tactic(auto, unfolding(crate::specs::Power::is_small))]
fn is_small(tol: f64, lambda: f64, r: f64) -> bool
    ensures { result ≡ is_small tol lambda r }
{
    let size = abs(lambda);
    size > VANISHING && r / size < tol
}

// One round from v, whose product has the norm size; whether it has converged.
// n is v.len(): with length v.old for it the clauses are 26 characters longer.
fn round(a: &[f64], n: usize, tol: f64, size: f64, v: &mut [f64], w: &mut [f64]) -> bool
    requires { Measured n a.now v.old w.old size }
    ensures { Rounded a.now n tol v.old result v.new w.new }
{
    let lambda = sign_of(dot(w, v)) * size;
    fill(|i| w[i] / size, v);
    times(a, v, n, w);
    is_small(tol, lambda, residual(w, lambda, v))
}

// At most max_iter rounds from v, whose product is w.
// The parameters of the call, in its order; with length v.old for n the clauses are 26 characters longer.
fn rounds(a: &[f64], n: usize, max_iter: u32, tol: f64, v: &mut [f64], w: &mut [f64]) -> f64
    requires { Multiplied n a.now v.old w.old }
    ensures { eigenpair v.new result ≡ iterated a.now n max_iter tol v.old }
{
    // k counts the rounds for the invariant. By try_for_each, what round needs and both results stayed open.
    for k in 0..max_iter {
        let size = norm(w);
        if size < VANISHING {
            return 0.0;
        }
        if round(a, n, tol, size, v, w) {
            return dot(v, w);
        }
    }
    dot(v, w)
}

// Writes the start.
#[tactic(auto, unfolding(crate::specs::Power::even_vector))]
fn begin(v: &mut [f64])
    requires { is_side (length v.old) ≡ true }
    ensures { v.new ≡ even_vector (length v.old) }
{
    let s = 1.0 / sqrt(v.len() as f64);
    fill(|i| s, v);
}

// The eigenvalue of a, n by n, that is greatest in size, and its vector into v; w is room for a vector.
// The parameters of the call, in its order; with length v.old for n the clauses are 26 characters longer.
#[tactic(auto, unfolding(crate::specs::Power::dominant))]
pub(crate) fn dominant(
    a: &[f64],
    n: usize,
    max_iter: u32,
    tol: f64,
    v: &mut [f64],
    w: &mut [f64],
) -> f64
    requires { Vectors n a.now v.old w.old }
    ensures { eigenpair v.new result ≡ dominant a.now n max_iter tol }
{
    begin(v);
    times(a, v, n, w);
    rounds(a, n, max_iter, tol, v, w)
}
