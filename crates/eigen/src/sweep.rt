// Sweeps of rotations, and the test that stops them.
ghost use Rattle.std.specs.Prelude.{ℕ, ◌≡◌, suc, ◌*◌, ◌-◌, ◌<◌, length};
ghost use Rattle.kernel.specs.Number.{mul};
ghost use Rattle.eigen.specs.Eigen.{above_rows, tolerance, swept_row, sweep, swept};
ghost use Rattle.eigen.specs.Private.{Slices, state_of};

use crate::rotate::rotate;
use dense::shape::entry;
use dense::sum::sum_from;
use dense::vector::dot;
use kernel::constants::{MIN_POSITIVE, REL_TOL};
use kernel::number::max;

// The most sweeps that are made.
pub(crate) const SWEEPS: usize = 64;

// The square of x.
fn square(x: f64) -> f64
    ensures { result ≡ mul x x }
{
    x * x
}

// The sum of the squares above the diagonal of m, n by n.
#[tactic(auto, using(dense::proofs::Laws::cell, crate::proofs::Rotations::Sweeps::above_more), unfolding(crate::specs::Eigen::above_rows))]
fn above(m: &[f64], n: usize) -> f64
    requires { length m.now ≡ n * n }
    ensures { result ≡ above_rows m.now n n }
{
    let mut s = 0.0;
    // Rows of differing length, so no `sum_rows_from`; `chunks_exact(n)` does not take an n of 0. By fold, what its
    // closure asks and what it gives stayed open.
    for i in 0..n {
        s = sum_from(s, n - (i + 1), |d| square(entry(m, n, i, i + 1 + d)));
    }
    s
}

// What the squares above the diagonal of m, a square matrix, have to fall below.
#[tactic(auto, unfolding(crate::specs::Eigen::tolerance))]
pub(crate) fn tolerance(m: &[f64]) -> f64
    ensures { (n : ℕ) → length m.now ≡ n * n → result ≡ tolerance m.now n }
{
    REL_TOL * REL_TOL * max(dot(m, m), MIN_POSITIVE)
}

// Rotates the pairs of row p.
fn sweep_row(m: &mut [f64], v: &mut [f64], n: usize, p: usize)
    requires { (p < n) × Slices n m.old v.old }
    ensures { state_of n m.new v.new ≡ swept_row n p (state_of n m.old v.old) (n - suc p) }
{
    // Each rotation goes on from the one before. By for_each, what rotate needs and what is left stayed open.
    for q in p + 1..n {
        rotate(m, v, n, p, q);
    }
}

// Rotates all pairs.
fn sweep(m: &mut [f64], v: &mut [f64], n: usize)
    requires { Slices n m.old v.old }
    ensures { state_of n m.new v.new ≡ sweep n (state_of n m.old v.old) }
{
    // Row by row. By for_each, what sweep_row needs and what is left stayed open.
    for p in 0..n {
        sweep_row(m, v, n, p);
    }
}

// Sweeps until the squares above the diagonal fall below tol, and 64 times at most.
pub(crate) fn sweep_until(m: &mut [f64], v: &mut [f64], n: usize, tol: f64)
    requires { Slices n m.old v.old }
    ensures { state_of n m.new v.new ≡ swept n tol (state_of n m.old v.old) }
{
    // k counts the sweeps for the invariant. By try_for_each, what sweep needs and what is left stayed open.
    for k in 0..SWEEPS {
        if above(m, n) < tol {
            return;
        }
        sweep(m, v, n);
    }
}
