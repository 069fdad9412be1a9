// The product of a matrix and a vector.
ghost use Rattle.std.specs.Prelude.{◌≡◌};
ghost use Rattle.linalg.specs.Products.{times};
ghost use Rattle.power.specs.Private.{Vectors};

use linalg::generic::mat_vec_mul;

// Writes the product of a, n by n, and x.
// n is x.len(): with length x.now for it the clauses are 39 characters longer.
#[tactic(auto, using(crate::proofs::Calls::times_left))]
pub(crate) fn times(a: &[f64], x: &[f64], n: usize, y: &mut [f64])
    requires { Vectors n a.now x.now y.old }
    ensures { y.new ≡ times a.now x.now n n }
{
    let _ = mat_vec_mul(a, x, n, y); // which has nothing to refuse
}
