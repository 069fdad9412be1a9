// The calls of generic.rs that iterate with powers of a matrix. What is alike in them is a line that asks of their
// shape.
ghost use Rattle.std.specs.Prelude.{◌≡◌};
ghost use Rattle.power.specs.Power.{singular_value, mat_eigenvector_max, after_eigenpair, mat_largest_singular_value};
ghost use Rattle.power.specs.Condition.{condition_number};

use crate::inverse::{condition, gram};
use crate::rounds::dominant;
use dense::questions::ask_shape;
use dense::shape::{is_form, is_matrix, is_side};
use kernel::number::sqrt;
use kernel::question::Question;

// The eigenvalue of a, n by n, that is greatest in size, by at most max_iter rounds, and its vector into v.
#[tactic(auto, using(dense::proofs::Tests::square_area, dense::proofs::Tests::side_high), unfolding(crate::specs::Power::mat_eigenvector_max, dense::specs::Matrix::has_length))]
pub fn mat_eigenvector_max(
    a: &[f64],
    n: usize,
    max_iter: u32,
    tol: f64,
    v: &mut [f64],
) -> Result<f64, Question>
    ensures { (result, v.new) ≡ after_eigenpair (mat_eigenvector_max a.now n max_iter tol v.old) v.old }
{
    ask_shape(is_side(n), || is_form(v, a, n))?;
    let mut w = [0.0f64; 16];
    Ok(dominant(a, n, max_iter, tol, v, &mut w[..n]))
}

// The singular value of an eigenvalue.
#[tactic(auto, unfolding(crate::specs::Power::singular_value))]
fn singular_value(lambda: f64) -> f64
    ensures { result ≡ singular_value lambda }
{
    if lambda <= 0.0 {
        return 0.0;
    }
    sqrt(lambda)
}

// The largest singular value of a, n by n, by at most max_iter rounds.
#[tactic(auto, using(dense::proofs::Tests::square_area, dense::proofs::Tests::side_high), unfolding(crate::specs::Power::mat_largest_singular_value, dense::specs::Matrix::has_length))]
pub fn mat_largest_singular_value(
    a: &[f64],
    n: usize,
    max_iter: u32,
    tol: f64,
) -> Result<f64, Question>
    ensures { result ≡ mat_largest_singular_value a.now n max_iter tol }
{
    ask_shape(is_side(n), || is_matrix(a, n, n))?;
    let mut g = [0.0f64; 256];
    let mut v = [0.0f64; 16];
    let mut w = [0.0f64; 16];
    let g = &mut g[..n * n];
    gram(a, n, g);
    let lambda = dominant(g, n, max_iter, tol, &mut v[..n], &mut w[..n]);
    Ok(singular_value(lambda))
}

// The condition number of a, n by n.
#[tactic(auto, using(dense::proofs::Tests::square_area), unfolding(crate::specs::Condition::condition_number, dense::specs::Matrix::has_length))]
pub fn condition_number(a: &[f64], n: usize) -> Result<f64, Question>
    ensures { result ≡ condition_number a.now n }
{
    ask_shape(is_side(n), || is_matrix(a, n, n))?;
    Ok(condition(a, n))
}
