// The symmetric matrix with which the sweeps start.
ghost use Rattle.std.specs.Prelude.{◌≡◌, ◌*◌, ◌<◌, length};
ghost use Rattle.eigen.specs.Eigen.{symmetrized_entry, symmetrized};

use dense::fill::fill_matrix;
use dense::shape::entry;

// Entry (i, j) of a, n by n, made symmetric.
#[tactic(auto, using(crate::proofs::Rotations::Means::mean_of, dense::proofs::Laws::cell), unfolding(crate::specs::Eigen::symmetrized_entry))]
fn mean(a: &[f64], n: usize, i: usize, j: usize) -> f64
    requires { (i < n) × (j < n) × (length a.now ≡ n * n) }
    ensures { result ≡ symmetrized_entry a.now n i j }
{
    let x = entry(a, n, i, j);
    if i == j {
        return x;
    }
    0.5 * (x + entry(a, n, j, i))
}

// Writes a, n by n, made symmetric.
pub(crate) fn symmetrize(a: &[f64], n: usize, m: &mut [f64])
    requires { (length a.now ≡ n * n) × (length m.old ≡ n * n) }
    ensures { m.new ≡ symmetrized a.now n }
{
    fill_matrix(|i, j| mean(a, n, i, j), n, n, m);
}
