// The matrix that is built again from its eigenvectors.
ghost use Rattle.std.specs.Prelude.{◌≡◌, ◌*◌, ◌<◌, length};
ghost use Rattle.kernel.specs.Number.{mul};
ghost use Rattle.dense.specs.Matrix.{matrix};
ghost use Rattle.repair.specs.Repair.{rebuilt_entry};

use dense::fill::fill_matrix;
use dense::shape::entry;
use dense::sum::sum_from;

// What an eigenvalue e adds to an entry, where its vector has v in the entry's row and w in its column.
pub(crate) fn share(v: f64, e: f64, w: f64) -> f64
    ensures { result ≡ mul (mul v e) w }
{
    v * e * w
}

// Entry (i, j) of the matrix with the eigenvalues e and the eigenvectors v.
#[tactic(auto, using(dense::proofs::Laws::cell), unfolding(crate::specs::Repair::rebuilt_entry))]
fn rebuilt_entry(v: &[f64], e: &[f64], i: usize, j: usize) -> f64
    requires { (i < length e.now) × (j < length e.now) × (length v.now ≡ length e.now * length e.now) }
    ensures { result ≡ rebuilt_entry v.now e.now (length e.now) i j }
{
    let n = e.len();
    sum_from(
        0.0,
        n,
        |k| share(entry(v, n, i, k), e[k], entry(v, n, j, k)),
    )
}

// Writes the matrix with the eigenvalues e and the eigenvectors v.
pub(crate) fn rebuild(v: &[f64], e: &[f64], out: &mut [f64])
    requires { (length v.now ≡ length e.now * length e.now) × (length out.old ≡ length v.now) }
    ensures { out.new ≡ matrix (length e.now) (length e.now) (rebuilt_entry v.now e.now (length e.now)) }
{
    let n = e.len();
    fill_matrix(|i, j| rebuilt_entry(v, e, i, j), n, n, out);
}
