// Inverse iteration, and the condition number that it leads to.
ghost use Rattle.std.specs.Prelude.{true, false, ◌≡◌, ◌*◌, ltb, length, Float, Some, None};
ghost use Rattle.kernel.specs.Constants.{nought};
ghost use Rattle.dense.specs.Matrix.{norm, is_side};
ghost use Rattle.power.specs.Power.{eigenpair};
ghost use Rattle.power.specs.Condition.{normalized, deflated, is_start, start_index, iterate, is_steady, ratio, iterated_ratio, ratio_of, condition};
ghost use Rattle.linalg.specs.Products.{gram};
ghost use Rattle.power.specs.Private.{Matrices, Vectors};

use crate::rounds::dominant;
use dense::fill::fill;
use dense::unit::unit;
use dense::vector::{dot, norm, subtract_scaled};
use kernel::constants::{LEAST_NORM, REL_TOL, infinity};
use kernel::number::{abs, sqrt};
use linalg::generic::mat_ata;
use pivoting::generic::mat_solve;

// `CONDITION_NUMBER_MAX_ITER`: the most rounds that are made.
const MAX_ROUNDS: u32 = 500;

// Writes unit vector k, less its part along v.
#[tactic(auto, unfolding(crate::specs::Condition::deflated))]
fn deflate(v: &[f64], k: usize, y: &mut [f64])
    requires { length v.now ≡ length y.old }
    ensures { y.new ≡ deflated v.now (length v.now) k }
{
    fill(|i| unit(i, k), y);
    let d = dot(y, v);
    subtract_scaled(d, v, y);
}

// Whether unit vector k, deflated to the norm s, is the start.
#[tactic(auto, unfolding(crate::specs::Condition::is_start))]
fn is_start(k: usize, s: f64) -> bool
    ensures { result ≡ is_start k s }
{
    if k == 0 {
        return !(s < LEAST_NORM);
    }
    s >= LEAST_NORM
}

// Writes x, of norm s, times 1 over its norm.
#[tactic(auto, unfolding(crate::specs::Condition::normalized))]
fn normalize(x: &[f64], s: f64, y: &mut [f64])
    requires { (length x.now ≡ length y.old) × (s ≡ norm x.now (length x.now)) }
    ensures { y.new ≡ normalized x.now (length x.now) }
{
    let part = 1.0 / s;
    fill(|i| x[i] * part, y);
}

// The norm of the start that v leaves, where there is one; it is written to y, not yet normalized.
fn start(v: &[f64], y: &mut [f64]) -> Option<f64>
    requires { length v.now ≡ length y.old }
    ensures none { result ≡ None → ltb (start_index v.now (length v.now)) (length v.now) ≡ false }
    ensures found { (s : Float) → result ≡ Some s → ltb (start_index v.now (length v.now)) (length v.now) ≡ true }
    ensures written { (s : Float) → result ≡ Some s → y.new ≡ deflated v.now (length v.now) (start_index v.now (length v.now)) }
    ensures measured { (s : Float) → result ≡ Some s → s ≡ norm y.new (length v.now) }
{
    // Leaves at the first start. By find_map a proof does not learn what y holds, and all four clauses stayed open.
    for k in 0..v.len() {
        deflate(v, k, y);
        let size = norm(y);
        if is_start(k, size) {
            return Some(size);
        }
    }
    None
}

// Whether an estimate is near enough to the one before.
#[tactic(auto, unfolding(crate::specs::Condition::is_steady))]
fn is_steady(old: f64, new: f64) -> bool
    ensures { result ≡ is_steady old new }
{
    abs(new - old) < REL_TOL * abs(new)
}

// The greatest singular value, sigma, over the least, by the estimate of 1 over its square.
#[tactic(auto, unfolding(crate::specs::Condition::ratio))]
fn ratio(sigma: f64, estimate: f64) -> f64
    ensures { result ≡ ratio sigma estimate }
{
    if estimate <= 0.0 {
        return infinity();
    }
    sigma / sqrt(1.0 / estimate)
}

// The condition number by at most 500 rounds from x; y is room for a vector.
// n is x.len(): with length x.old for it the clauses are 26 characters longer.
fn rounds(g: &[f64], n: usize, sigma: f64, x: &mut [f64], y: &mut [f64]) -> f64
    requires { Vectors n g.now x.old y.old }
    ensures { result ≡ iterated_ratio g.now n sigma (iterate x.old nought) }
{
    let mut estimate = 0.0;
    // k counts the rounds for the invariant. By try_fold, what normalize needs and both results stayed open.
    for k in 0..MAX_ROUNDS {
        if mat_solve(g, x, n, y).is_err() {
            return infinity(); // no solution
        }
        let size = norm(y);
        if size < LEAST_NORM {
            return infinity();
        }
        let next = dot(x, y);
        if is_steady(estimate, next) {
            return ratio(sigma, next);
        }
        normalize(y, size, x);
        estimate = next;
    }
    infinity()
}

// The condition number by the greatest eigenvalue of g and its vector v; x and y are room for vectors.
fn ratio_of(g: &[f64], lambda: f64, v: &[f64], x: &mut [f64], y: &mut [f64]) -> f64
    requires { Vectors (length v.now) g.now x.old y.old }
    ensures { result ≡ ratio_of g.now (length v.now) (eigenpair v.now lambda) }
{
    if lambda <= 0.0 {
        return infinity();
    }
    let sigma = sqrt(lambda);
    let Some(size) = start(v, y) else {
        return infinity();
    };
    normalize(y, size, x);
    rounds(g, v.len(), sigma, x, y)
}

// Writes the product of the transpose of a, n by n, and a.
#[tactic(auto, using(crate::proofs::Calls::gram_left))]
pub(crate) fn gram(a: &[f64], n: usize, g: &mut [f64])
    requires { Matrices n a.now g.old }
    ensures { g.new ≡ gram a.now n n }
{
    let _ = mat_ata(a, n, n, g); // which has nothing to refuse
}

// The condition number of a, n by n.
#[tactic(auto, using(dense::proofs::Tests::side_high, dense::proofs::Tests::square_area))]
pub(crate) fn condition(a: &[f64], n: usize) -> f64
    requires { (is_side n ≡ true) × (length a.now ≡ n * n) }
    ensures { result ≡ condition a.now n }
{
    let mut g = [0.0f64; 256];
    let mut v = [0.0f64; 16];
    let mut x = [0.0f64; 16];
    let mut y = [0.0f64; 16];
    let g = &mut g[..n * n];
    let v = &mut v[..n];
    let y = &mut y[..n];
    gram(a, n, g);
    let lambda = dominant(g, n, MAX_ROUNDS, REL_TOL, v, y);
    ratio_of(g, lambda, v, &mut x[..n], y)
}
