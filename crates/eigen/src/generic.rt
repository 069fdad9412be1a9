// `mat_symmetric_eigen` of linalg/generic.rs.
ghost use Rattle.std.specs.Prelude.{◌≡◌, ◌&&◌, ◌*◌, ◌≤◌, length};
ghost use Rattle.dense.specs.Matrix.{has_length};
ghost use Rattle.eigen.specs.Eigen.{pairs_of, eigenpairs, mat_symmetric_eigen, after_pairs};
ghost use Rattle.eigen.specs.Private.{Lent, state_of};

use crate::inside::eigenpairs_in;
use crate::order::{arrange_values, arrange_vectors, diagonal, sort};
use crate::planes::plane_eigenpairs;
use dense::questions::ask_shape;
use dense::shape::{is_form, is_matrix, is_side};
use dense::vector::{are_finite, is_finite};
use kernel::question::Question;

// Question 4, and then the eigenpairs that m and the rows of v, n by n, show.
// n is values.len(): with `let n = length values.old in` for it the two clauses are 58 characters longer.
pub(crate) fn pairs(
    m: &[f64],
    v: &[f64],
    n: usize,
    values: &mut [f64],
    vectors: &mut [f64],
) -> Result<(), Question>
    requires { (n ≤ 16) × (length v.now ≡ n * n) × Lent n m.now values.old vectors.old }
    ensures { (result, values.new, vectors.new) ≡ after_pairs (pairs_of n (state_of n m.now v.now)) values.old vectors.old }
{
    let mut values_room = [0.0f64; 16];
    let mut order_room = [0usize; 16];
    let e = &mut values_room[..n];
    let l = &mut order_room[..n];
    diagonal(m, e);
    if !are_finite(e) {
        return Err(Question::FiniteEigenvalues);
    }
    sort(e, l);
    arrange_values(e, l, values);
    arrange_vectors(v, l, n, vectors);
    Ok(())
}

// The eigenpairs of a matrix of one entry, which no sweep changes: the eigenvalue is the entry, and its vector 1.0.
fn single_eigenpair(a: &[f64], values: &mut [f64], vectors: &mut [f64]) -> Result<(), Question>
    requires { Lent 1 a.now values.old vectors.old }
    ensures { (result, values.new, vectors.new) ≡ after_pairs (eigenpairs a.now 1) values.old vectors.old }
{
    let x = a[0];
    if !is_finite(x) {
        return Err(Question::FiniteEigenvalues);
    }
    values[0] = x;
    vectors[0] = 1.0;
    Ok(())
}

// The eigenpairs of a, n by n, with room for matrices of SIZE entries.
// The parameters of the call, in its order; with length values.old for n the clauses are 84 characters longer.
fn eigenpairs_within<const SIZE: usize>(
    a: &[f64],
    n: usize,
    values: &mut [f64],
    vectors: &mut [f64],
) -> Result<(), Question>
    requires { (n ≤ 16) × (n * n ≤ SIZE) × (SIZE ≤ 256) × Lent n a.now values.old vectors.old }
    ensures { (result, values.new, vectors.new) ≡ after_pairs (eigenpairs a.now n) values.old vectors.old }
{
    let mut m = [0.0f64; SIZE];
    let mut v = [0.0f64; SIZE];
    let size = n * n;
    eigenpairs_in(a, n, &mut m[..size], &mut v[..size], values, vectors)
}

// The eigenpairs of a, n by n, from question 4 on, with the room that the order needs.
// It is chosen by tests: arrays have fixed sizes.
// The parameters of the call, in its order; with length values.old for n the clauses are 52 characters longer.
#[tactic(auto, using(dense::proofs::Matrices::small_size, dense::proofs::Matrices::full_size))]
fn eigenpairs(a: &[f64], n: usize, values: &mut [f64], vectors: &mut [f64]) -> Result<(), Question>
    requires { (n ≤ 16) × Lent n a.now values.old vectors.old }
    ensures { (result, values.new, vectors.new) ≡ after_pairs (eigenpairs a.now n) values.old vectors.old }
{
    if n == 1 {
        return single_eigenpair(a, values, vectors);
    }
    if n == 2 {
        return plane_eigenpairs(a, values, vectors);
    }
    if n <= 4 {
        return eigenpairs_within::<16>(a, n, values, vectors);
    }
    eigenpairs_within::<256>(a, n, values, vectors)
}

// Whether a is an n by n matrix, with slices for its eigenvalues and its vectors.
fn are_lent(a: &[f64], values: &[f64], vectors: &[f64], n: usize) -> bool
    requires { n * n ≤ 256 }
    ensures { result ≡ (has_length a.now (n * n) && (has_length values.now n && has_length vectors.now (n * n))) }
{
    is_matrix(a, n, n) && is_form(values, vectors, n)
}

// The eigenvalues of a, n by n, in descending order, into values, and their vectors into the columns of vectors.
#[tactic(auto, using(dense::proofs::Tests::square_area, dense::proofs::Tests::side_high), unfolding(dense::specs::Matrix::has_length))]
pub fn mat_symmetric_eigen(
    a: &[f64],
    n: usize,
    values: &mut [f64],
    vectors: &mut [f64],
) -> Result<(), Question>
    ensures { (result, values.new, vectors.new)
        ≡ after_pairs (mat_symmetric_eigen a.now n values.old vectors.old) values.old vectors.old }
{
    ask_shape(is_side(n), || are_lent(a, values, vectors, n))?;
    eigenpairs(a, n, values, vectors)
}
