// The norms of the rows of a matrix, and question 5.
ghost use Rattle.std.specs.Prelude.{◌≡◌, ◌*◌, ◌<◌, length};
ghost use Rattle.pivoting.specs.Pivot.{row_norm, row_norms, some_scale};

use dense::fill::fill;
use dense::shape::row;
use dense::vector::max_abs;
use kernel::constants::MIN_SCALE;

// The norm of row i of a, n by n.
fn row_norm(a: &[f64], n: usize, i: usize) -> f64
    requires { (i < n) × (length a.now ≡ n * n) }
    ensures { result ≡ row_norm a.now n i }
{
    max_abs(row(a, n, i))
}

// Writes the norms of the rows of a, a square matrix of as many rows as s has entries.
pub(crate) fn row_norms(a: &[f64], s: &mut [f64])
    requires { length a.now ≡ length s.old * length s.old }
    ensures { s.new ≡ row_norms a.now (length s.old) }
{
    let n = s.len();
    fill(|i| row_norm(a, n, i), s);
}

// Question 5: whether one of the norms is not too small.
#[tactic(auto, using(crate::proofs::Pivots::scale_found), unfolding(crate::specs::Pivot::some_scale))]
pub(crate) fn some_scale(s: &[f64]) -> bool
    ensures { result ≡ some_scale (length s.now) s.now }
{
    for x in s {
        if !(*x < MIN_SCALE) {
            return true;
        }
    }
    false
}
