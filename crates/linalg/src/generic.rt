// The calls of generic.rs, for matrices of any sides from 1 to 16. What is alike in them is a line that asks of their
// shape; the next calls each one's own function.
ghost use Rattle.std.specs.Prelude.{◌≡◌};
ghost use Rattle.dense.specs.Answer.{Leaves};
ghost use Rattle.linalg.specs.Products.{mat_mul, mat_transpose, mat_ata, mat_symmetrize, mat_vec_mul};
ghost use Rattle.linalg.specs.Norms.{vec_norm, mat_frobenius};
ghost use Rattle.linalg.specs.Cholesky.{mat_cholesky};
ghost use Rattle.linalg.specs.Sums.{mat_trace, mat_trace_product, mat_trace_cube, mat_quadratic_form, distance_with_inv};

use crate::cholesky::cholesky;
use crate::inside::distance_with_inv;
use crate::product::{ata, by_width, product, symmetrize, times_vector, transpose};
use crate::sums::{quadratic_form, trace, trace_cube_product, trace_product};
use dense::questions::ask_shape;
use dense::shape::{
    are_factors, are_matrices, are_sides, are_three_sides, is_distance, is_form, is_matrix,
    is_side, is_system, is_vector,
};
use dense::vector::norm;
use kernel::question::Question;

// The m by n product of a, m by k, and b, k by n, into out.
#[tactic(auto, using(dense::proofs::Tests::area, dense::proofs::Tests::side_high), unfolding(dense::specs::Matrix::has_length, crate::specs::Products::mat_mul))]
pub fn mat_mul(
    a: &[f64],
    b: &[f64],
    m: usize,
    k: usize,
    n: usize,
    out: &mut [f64],
) -> Result<(), Question>
    ensures { Leaves (mat_mul a.now b.now m k n out.old) out.old result out.new }
{
    ask_shape(are_three_sides(m, k, n), || are_factors(a, b, m, k, n, out))?;
    by_width(n, out, |n, out| product(a, b, m, k, n, out));
    Ok(())
}

// The n by m transpose of a, m by n, into out.
#[tactic(auto, using(dense::proofs::Tests::area), unfolding(dense::specs::Matrix::has_length, crate::specs::Products::mat_transpose))]
pub fn mat_transpose(a: &[f64], m: usize, n: usize, out: &mut [f64]) -> Result<(), Question>
    ensures { Leaves (mat_transpose a.now m n out.old) out.old result out.new }
{
    ask_shape(are_sides(m, n), || are_matrices(a, m, n, out, n, m))?;
    transpose(a, m, n, out);
    Ok(())
}

// The n by n product of the transpose of a, m by n, and a, into out.
#[tactic(auto, using(dense::proofs::Tests::area, dense::proofs::Tests::side_high), unfolding(dense::specs::Matrix::has_length, crate::specs::Products::mat_ata))]
pub fn mat_ata(a: &[f64], m: usize, n: usize, out: &mut [f64]) -> Result<(), Question>
    ensures { Leaves (mat_ata a.now m n out.old) out.old result out.new }
{
    ask_shape(are_sides(m, n), || are_matrices(a, m, n, out, n, n))?;
    by_width(n, out, |n, out| ata(a, m, n, out));
    Ok(())
}

// Half the sum of a, n by n, and its transpose, into out.
#[tactic(auto, using(dense::proofs::Tests::area), unfolding(dense::specs::Matrix::has_length, crate::specs::Products::mat_symmetrize))]
pub fn mat_symmetrize(a: &[f64], n: usize, out: &mut [f64]) -> Result<(), Question>
    ensures { Leaves (mat_symmetrize a.now n out.old) out.old result out.new }
{
    ask_shape(is_side(n), || are_matrices(a, n, n, out, n, n))?;
    symmetrize(a, n, out);
    Ok(())
}

// The product of a, n by n, and the vector x, into out.
#[tactic(auto, using(dense::proofs::Tests::area), unfolding(dense::specs::Matrix::has_length, crate::specs::Products::mat_vec_mul))]
pub fn mat_vec_mul(a: &[f64], x: &[f64], n: usize, out: &mut [f64]) -> Result<(), Question>
    ensures { Leaves (mat_vec_mul a.now x.now n out.old) out.old result out.new }
{
    ask_shape(is_side(n), || is_system(a, x, out, n))?;
    by_width(n, out, |n, out| times_vector(a, x, n, out));
    Ok(())
}

// The sum of the diagonal of a, n by n.
#[tactic(auto, using(dense::proofs::Tests::area), unfolding(dense::specs::Matrix::has_length, crate::specs::Sums::mat_trace))]
pub fn mat_trace(a: &[f64], n: usize) -> Result<f64, Question>
    ensures { result ≡ mat_trace a.now n }
{
    ask_shape(is_side(n), || is_matrix(a, n, n))?;
    Ok(trace(a, n))
}

// The trace of the product of a and b, n by n.
#[tactic(auto, using(dense::proofs::Tests::area), unfolding(dense::specs::Matrix::has_length, crate::specs::Sums::mat_trace_product))]
pub fn mat_trace_product(a: &[f64], b: &[f64], n: usize) -> Result<f64, Question>
    ensures { result ≡ mat_trace_product a.now b.now n }
{
    ask_shape(is_side(n), || are_matrices(a, n, n, b, n, n))?;
    Ok(trace_product(a, b, n))
}

// The trace of the cube of the product of a and b, n by n.
#[tactic(auto, using(dense::proofs::Tests::area), unfolding(dense::specs::Matrix::has_length, crate::specs::Sums::mat_trace_cube))]
pub fn mat_trace_cube(a: &[f64], b: &[f64], n: usize) -> Result<f64, Question>
    ensures { result ≡ mat_trace_cube a.now b.now n }
{
    ask_shape(is_side(n), || are_matrices(a, n, n, b, n, n))?;
    Ok(trace_cube_product(a, b, n))
}

// The quadratic form of x under a, n by n.
#[tactic(auto, using(dense::proofs::Tests::area), unfolding(dense::specs::Matrix::has_length, crate::specs::Sums::mat_quadratic_form))]
pub fn mat_quadratic_form(x: &[f64], a: &[f64], n: usize) -> Result<f64, Question>
    ensures { result ≡ mat_quadratic_form x.now a.now n }
{
    ask_shape(is_side(n), || is_form(x, a, n))?;
    Ok(quadratic_form(x, a))
}

// The squared Mahalanobis distance of x and mu under inv, the inverse of the covariance, n by n.
#[tactic(auto, using(dense::proofs::Tests::area, dense::proofs::Tests::side_high), unfolding(dense::specs::Matrix::has_length, crate::specs::Sums::distance_with_inv))]
pub fn mahalanobis_distance_squared_with_inv(
    x: &[f64],
    mu: &[f64],
    inv: &[f64],
    n: usize,
) -> Result<f64, Question>
    ensures { result ≡ distance_with_inv x.now mu.now inv.now n }
{
    ask_shape(is_side(n), || is_distance(x, mu, inv, n))?;
    Ok(distance_with_inv(x, mu, inv))
}

// The Euclidean norm of x, of n entries.
#[tactic(auto, unfolding(dense::specs::Matrix::has_length, crate::specs::Norms::vec_norm))]
pub fn vec_norm(x: &[f64], n: usize) -> Result<f64, Question>
    ensures { result ≡ vec_norm x.now n }
{
    ask_shape(is_side(n), || is_vector(x, n))?;
    Ok(norm(x))
}

// The Frobenius norm of a, m by n.
#[tactic(auto, using(dense::proofs::Tests::area), unfolding(dense::specs::Matrix::has_length, crate::specs::Norms::mat_frobenius))]
pub fn mat_frobenius(a: &[f64], m: usize, n: usize) -> Result<f64, Question>
    ensures { result ≡ mat_frobenius a.now m n }
{
    ask_shape(are_sides(m, n), || is_matrix(a, m, n))?;
    Ok(norm(a))
}

// The lower Cholesky factor of a, n by n, into out.
#[tactic(auto, using(dense::proofs::Tests::area), unfolding(dense::specs::Matrix::has_length, crate::specs::Cholesky::mat_cholesky))]
pub fn mat_cholesky(a: &[f64], n: usize, out: &mut [f64]) -> Result<(), Question>
    ensures { Leaves (mat_cholesky a.now n out.old) out.old result out.new }
{
    ask_shape(is_side(n), || are_matrices(a, n, n, out, n, n))?;
    cholesky(a, n, out)
}
