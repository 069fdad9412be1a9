// The identity.
ghost use Rattle.std.specs.Prelude.{◌≡◌, ◌*◌, length};
ghost use Rattle.dense.specs.Matrix.{unit_entry, identity};

use crate::fill::fill_matrix;

// Entry (i, j) of the identity.
pub fn unit(i: usize, j: usize) -> f64
    ensures { result ≡ unit_entry i j }
{
    if i == j {
        return 1.0;
    }
    0.0
}

// Writes the n by n identity.
pub fn identity(n: usize, e: &mut [f64])
    requires { length e.old ≡ n * n }
    ensures { e.new ≡ identity n }
{
    fill_matrix(|i, j| unit(i, j), n, n, e);
}
