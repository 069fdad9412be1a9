// The pivoting calls of generic.rs, for matrices of any side from 1 to 16. What is alike in them is a line that asks of
// their shape.
ghost use Rattle.std.specs.Prelude.{◌≡◌};
ghost use Rattle.dense.specs.Answer.{Leaves};
ghost use Rattle.pivoting.specs.Pivot.{row_inf_norms};
ghost use Rattle.pivoting.specs.Det.{mat_det};
ghost use Rattle.pivoting.specs.Solve.{mat_solve, mat_inv, mahalanobis};

use crate::det::determinant;
use crate::inside::distance;
use crate::norms::row_norms;
use crate::solve::{inverse, solve};
use dense::questions::ask_shape;
use dense::shape::{are_matrices, is_distance, is_matrix, is_side, is_system, is_vector};
use kernel::question::Question;

// The greatest absolute values of the rows of a, n by n, into out.
#[tactic(auto, using(dense::proofs::Tests::square_area, dense::proofs::Tests::side_high), unfolding(crate::specs::Pivot::row_inf_norms, dense::specs::Matrix::has_length))]
pub fn row_inf_norms(a: &[f64], n: usize, out: &mut [f64]) -> Result<(), Question>
    ensures { Leaves (row_inf_norms a.now n out.old) out.old result out.new }
{
    ask_shape(is_side(n), || is_matrix(a, n, n) && is_vector(out, n))?;
    row_norms(a, out);
    Ok(())
}

// The x with a x = b, for a n by n, into out.
#[tactic(auto, using(dense::proofs::Tests::square_area, dense::proofs::Tests::side_high), unfolding(crate::specs::Solve::mat_solve, dense::specs::Matrix::has_length))]
pub fn mat_solve(a: &[f64], b: &[f64], n: usize, out: &mut [f64]) -> Result<(), Question>
    ensures { Leaves (mat_solve a.now b.now n out.old) out.old result out.new }
{
    ask_shape(is_side(n), || is_system(a, b, out, n))?;
    solve(a, b, n, 1, out)
}

// The inverse of a, n by n, into out.
#[tactic(auto, using(dense::proofs::Tests::square_area, dense::proofs::Tests::side_high), unfolding(crate::specs::Solve::mat_inv, dense::specs::Matrix::has_length))]
pub fn mat_inv(a: &[f64], n: usize, out: &mut [f64]) -> Result<(), Question>
    ensures { Leaves (mat_inv a.now n out.old) out.old result out.new }
{
    ask_shape(is_side(n), || are_matrices(a, n, n, out, n, n))?;
    inverse(a, n, out)
}

// The determinant of a, n by n: 0.0 where the pivoting fails.
#[tactic(auto, using(dense::proofs::Tests::square_area, dense::proofs::Tests::side_high), unfolding(crate::specs::Det::mat_det, dense::specs::Matrix::has_length))]
pub fn mat_det(a: &[f64], n: usize) -> Result<f64, Question>
    ensures { result ≡ mat_det a.now n }
{
    ask_shape(is_side(n), || is_matrix(a, n, n))?;
    Ok(determinant(a, n))
}

// The squared Mahalanobis distance of x and mu under the covariance cov, n by n.
#[tactic(auto, using(dense::proofs::Tests::square_area, dense::proofs::Tests::side_high), unfolding(crate::specs::Solve::mahalanobis, dense::specs::Matrix::has_length))]
pub fn mahalanobis_distance_squared(
    x: &[f64],
    mu: &[f64],
    cov: &[f64],
    n: usize,
) -> Result<f64, Question>
    ensures { result ≡ mahalanobis x.now mu.now cov.now n }
{
    ask_shape(is_side(n), || is_distance(x, mu, cov, n))?;
    distance(x, mu, cov)
}
