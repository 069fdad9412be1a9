// The calls that pivot.
#![tactic(auto, using(crate::proofs::Laws::told_answers), unfolding(crate::specs::Told::Tells))]

ghost use Rattle.std.specs.Prelude.{◌≡◌};
ghost use Rattle.pivoting.specs.Pivot as Pivot;
ghost use Rattle.pivoting.specs.Solve as Solve;
ghost use Rattle.pivoting.specs.Det as Det;
ghost use Rattle.capi.specs.Told.{Tells};

use crate::told::{code, enter};
use pivoting::generic;

// The greatest size in each row of a, n by n, into out.
#[unsafe(no_mangle)]
pub extern "C" fn pel_row_inf_norms(a: &[f64], n: usize, out: &mut [f64]) -> u32
    ensures { Tells (Pivot.row_inf_norms a.now n out.old) out.old result out.new }
{
    code(generic::row_inf_norms(a, n, out))
}

// The solution of a, n by n, for b, into out.
#[unsafe(no_mangle)]
pub extern "C" fn pel_mat_solve(a: &[f64], b: &[f64], n: usize, out: &mut [f64]) -> u32
    ensures { Tells (Solve.mat_solve a.now b.now n out.old) out.old result out.new }
{
    code(generic::mat_solve(a, b, n, out))
}

// The inverse of a, n by n, into out.
#[unsafe(no_mangle)]
pub extern "C" fn pel_mat_inv(a: &[f64], n: usize, out: &mut [f64]) -> u32
    ensures { Tells (Solve.mat_inv a.now n out.old) out.old result out.new }
{
    code(generic::mat_inv(a, n, out))
}

// The determinant of a, n by n, into out.
#[unsafe(no_mangle)]
pub extern "C" fn pel_mat_det(a: &[f64], n: usize, out: &mut f64) -> u32
    ensures { Tells (Det.mat_det a.now n) out.old result out.new }
{
    enter(generic::mat_det(a, n), out)
}

// The squared distance of x and mu under cov, n by n, into out.
#[unsafe(no_mangle)]
pub extern "C" fn pel_mahalanobis_distance_squared(
    x: &[f64],
    mu: &[f64],
    cov: &[f64],
    n: usize,
    out: &mut f64,
) -> u32
    ensures { Tells (Solve.mahalanobis x.now mu.now cov.now n) out.old result out.new }
{
    enter(generic::mahalanobis_distance_squared(x, mu, cov, n), out)
}
