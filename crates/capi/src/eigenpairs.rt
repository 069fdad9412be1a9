// Eigenpairs.
#![tactic(auto, using(crate::proofs::Laws::told_answers), unfolding(crate::specs::Told::Tells))]

ghost use Rattle.eigen.specs.Eigen as Eigen;
ghost use Rattle.capi.specs.Told.{Tells, pairs};

use crate::told::code;
use eigen::generic;

// The eigenvalues of a, n by n, in descending order, into values, and their vectors into the columns of vectors.
#[unsafe(no_mangle)]
pub extern "C" fn pel_mat_symmetric_eigen(
    a: &[f64],
    n: usize,
    values: &mut [f64],
    vectors: &mut [f64],
) -> u32
    ensures { Tells (Eigen.mat_symmetric_eigen a.now n values.old vectors.old)
        (pairs values.old vectors.old) result (pairs values.new vectors.new) }
{
    code(generic::mat_symmetric_eigen(a, n, values, vectors))
}
