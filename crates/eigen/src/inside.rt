// Eigenpairs for a caller that knows the lengths: what the project's own crates call, and no user does.
ghost use Rattle.std.specs.Prelude.{◌≡◌, ◌*◌, ◌≤◌, [], ◌∷◌, length};
ghost use Rattle.eigen.specs.Eigen.{eigenpairs, after_pairs};
ghost use Rattle.eigen.specs.Private.{eigen_plane, plane_pairs, Lent, state_of, final};

use crate::Plane;
use crate::generic::pairs;
use crate::planes::{begin, descend, plane_tolerance, sweep_plane};
use crate::start::symmetrize;
use crate::sweep::{sweep_until, tolerance};
use dense::unit::identity;
use kernel::question::Question;

// What the sweeps leave of the matrix with the rows w, x and y, z. It shows the eigenpairs, or by an app or aqq that is not finite that
// question 4 is not met.
pub fn eigenplane(w: f64, x: f64, y: f64, z: f64) -> Plane
    ensures value { result ≡ eigen_plane w x y z }
    ensures result_value { plane_pairs result ≡ eigenpairs (w ∷ x ∷ y ∷ z ∷ []) 2 }
{
    let s = begin(w, x, y, z);
    let tol = plane_tolerance(s);
    let p = sweep_plane(s, tol);
    descend(p)
}

// The eigenpairs of a, n by n, from question 4 on. The slices m and v are room for the matrix and, as rows, the vectors.
// n is values.len(): with `let n = length values.old in` for it the three clauses are 87 characters longer.
pub fn eigenpairs_in(
    a: &[f64],
    n: usize,
    m: &mut [f64],
    v: &mut [f64],
    values: &mut [f64],
    vectors: &mut [f64],
) -> Result<(), Question>
    requires { (n ≤ 16) × (length m.old ≡ n * n) × (length v.old ≡ n * n) × Lent n a.now values.old vectors.old }
    ensures vectors_after { (result, values.new, vectors.new) ≡ after_pairs (eigenpairs a.now n) values.old vectors.old }
    ensures v_after { state_of n m.new v.new ≡ final a.now n }
{
    symmetrize(a, n, m);
    identity(n, v);
    let tol = tolerance(m);
    sweep_until(m, v, n, tol);
    pairs(m, v, n, values, vectors)
}
