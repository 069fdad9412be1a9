// The matrix calls.
#![tactic(auto, using(crate::proofs::Laws::told_answers), unfolding(crate::specs::Told::Tells))]

ghost use Rattle.std.specs.Prelude.{◌≡◌};
ghost use Rattle.linalg.specs.Products as Products;
ghost use Rattle.linalg.specs.Sums as Sums;
ghost use Rattle.linalg.specs.Norms as Norms;
ghost use Rattle.linalg.specs.Cholesky as Cholesky;
ghost use Rattle.linalg.specs.Regularize as Regularize;
ghost use Rattle.mat3.specs.Mat3 as Mat3;
ghost use Rattle.capi.specs.Told.{Tells};

use crate::told::{code, enter};
use linalg::{generic, regularize};

// The m by n product of a, m by k, and b, k by n, into out.
#[unsafe(no_mangle)]
pub extern "C" fn pel_mat_mul(
    a: &[f64],
    b: &[f64],
    m: usize,
    k: usize,
    n: usize,
    out: &mut [f64],
) -> u32
    ensures { Tells (Products.mat_mul a.now b.now m k n out.old) out.old result out.new }
{
    code(generic::mat_mul(a, b, m, k, n, out))
}

// The n by m transpose of a, m by n, into out.
#[unsafe(no_mangle)]
pub extern "C" fn pel_mat_transpose(a: &[f64], m: usize, n: usize, out: &mut [f64]) -> u32
    ensures { Tells (Products.mat_transpose a.now m n out.old) out.old result out.new }
{
    code(generic::mat_transpose(a, m, n, out))
}

// The n by n product of the transpose of a, m by n, and a, into out.
#[unsafe(no_mangle)]
pub extern "C" fn pel_mat_ata(a: &[f64], m: usize, n: usize, out: &mut [f64]) -> u32
    ensures { Tells (Products.mat_ata a.now m n out.old) out.old result out.new }
{
    code(generic::mat_ata(a, m, n, out))
}

// Half of the sum of a and its transpose, into out.
#[unsafe(no_mangle)]
pub extern "C" fn pel_mat_symmetrize(a: &[f64], n: usize, out: &mut [f64]) -> u32
    ensures { Tells (Products.mat_symmetrize a.now n out.old) out.old result out.new }
{
    code(generic::mat_symmetrize(a, n, out))
}

// The product of a, n by n, and x, into out.
#[unsafe(no_mangle)]
pub extern "C" fn pel_mat_vec_mul(a: &[f64], x: &[f64], n: usize, out: &mut [f64]) -> u32
    ensures { Tells (Products.mat_vec_mul a.now x.now n out.old) out.old result out.new }
{
    code(generic::mat_vec_mul(a, x, n, out))
}

// The trace of a, n by n, into out.
#[unsafe(no_mangle)]
pub extern "C" fn pel_mat_trace(a: &[f64], n: usize, out: &mut f64) -> u32
    ensures { Tells (Sums.mat_trace a.now n) out.old result out.new }
{
    enter(generic::mat_trace(a, n), out)
}

// The trace of the product of a and b, n by n, into out.
#[unsafe(no_mangle)]
pub extern "C" fn pel_mat_trace_product(a: &[f64], b: &[f64], n: usize, out: &mut f64) -> u32
    ensures { Tells (Sums.mat_trace_product a.now b.now n) out.old result out.new }
{
    enter(generic::mat_trace_product(a, b, n), out)
}

// The trace of the cube of the product of a and b, n by n, into out.
#[unsafe(no_mangle)]
pub extern "C" fn pel_mat_trace_cube(a: &[f64], b: &[f64], n: usize, out: &mut f64) -> u32
    ensures { Tells (Sums.mat_trace_cube a.now b.now n) out.old result out.new }
{
    enter(generic::mat_trace_cube(a, b, n), out)
}

// The quadratic form of x under a, n by n, into out.
#[unsafe(no_mangle)]
pub extern "C" fn pel_mat_quadratic_form(x: &[f64], a: &[f64], n: usize, out: &mut f64) -> u32
    ensures { Tells (Sums.mat_quadratic_form x.now a.now n) out.old result out.new }
{
    enter(generic::mat_quadratic_form(x, a, n), out)
}

// The squared distance of x and mu under inv, n by n, into out.
#[unsafe(no_mangle)]
pub extern "C" fn pel_mahalanobis_distance_squared_with_inv(
    x: &[f64],
    mu: &[f64],
    inv: &[f64],
    n: usize,
    out: &mut f64,
) -> u32
    ensures { Tells (Sums.distance_with_inv x.now mu.now inv.now n) out.old result out.new }
{
    enter(
        generic::mahalanobis_distance_squared_with_inv(x, mu, inv, n),
        out,
    )
}

// cov with alpha added to its diagonal, into out.
#[unsafe(no_mangle)]
pub extern "C" fn pel_tikhonov(cov: &[f64], alpha: f64, n: usize, out: &mut [f64]) -> u32
    ensures { Tells (Regularize.tikhonov cov.now alpha n out.old) out.old result out.new }
{
    code(regularize::tikhonov(cov, alpha, n, out))
}

// The determinant of m, 3 by 3, into out.
#[unsafe(no_mangle)]
pub extern "C" fn pel_mat3_det(m: &[f64], out: &mut f64) -> u32
    ensures { Tells (Mat3.mat3_det m.now) out.old result out.new }
{
    enter(mat3::mat3_det(m), out)
}

// The inverse of m, 3 by 3, into out.
#[unsafe(no_mangle)]
pub extern "C" fn pel_mat3_inv(m: &[f64], out: &mut [f64]) -> u32
    ensures { Tells (Mat3.mat3_inv m.now out.old) out.old result out.new }
{
    code(mat3::mat3_inv(m, out))
}

// The solution of a, 3 by 3, for b, into out.
#[unsafe(no_mangle)]
pub extern "C" fn pel_mat3_solve(a: &[f64], b: &[f64], out: &mut [f64]) -> u32
    ensures { Tells (Mat3.mat3_solve a.now b.now out.old) out.old result out.new }
{
    code(mat3::mat3_solve(a, b, out))
}

// The Frobenius norm of a, m by n, into out.
#[unsafe(no_mangle)]
pub extern "C" fn pel_mat_frobenius(a: &[f64], m: usize, n: usize, out: &mut f64) -> u32
    ensures { Tells (Norms.mat_frobenius a.now m n) out.old result out.new }
{
    enter(generic::mat_frobenius(a, m, n), out)
}

// The Euclidean norm of x, n entries, into out.
#[unsafe(no_mangle)]
pub extern "C" fn pel_vec_norm(x: &[f64], n: usize, out: &mut f64) -> u32
    ensures { Tells (Norms.vec_norm x.now n) out.old result out.new }
{
    enter(generic::vec_norm(x, n), out)
}

// The lower triangular factor of a, n by n, into out.
#[unsafe(no_mangle)]
pub extern "C" fn pel_mat_cholesky(a: &[f64], n: usize, out: &mut [f64]) -> u32
    ensures { Tells (Cholesky.mat_cholesky a.now n out.old) out.old result out.new }
{
    code(generic::mat_cholesky(a, n, out))
}
