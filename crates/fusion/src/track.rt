// The track that is told by an information, and its fields.
ghost use Rattle.std.specs.Prelude.{◌≡◌, true, ◌*◌, length};
ghost use Rattle.dense.specs.Matrix.{is_side};
ghost use Rattle.fusion.specs.Fusion.{estimate_from, if_finite, fields_of};
ghost use Rattle.fusion.specs.Private.{HasFields, Sized, Gives, information, estimate, left_by};

use dense::shape::part;
use dense::vector::are_finite;
use kernel::question::Question;
use linalg::generic::mat_symmetrize;
use pivoting::generic::{mat_inv, mat_solve};
use repair::regularize::nearest_psd;

// Writes the state and the covariance of the track that the matrix m and the vector y tell to x and p, where there is
// one. The slice n is room for the symmetric part of the inverse.
pub(crate) fn estimate(
    m: &[f64],
    y: &[f64],
    d: usize,
    floor: f64,
    n: &mut [f64],
    x: &mut [f64],
    p: &mut [f64],
) -> Result<(), Question>
    requires { (is_side d ≡ true) × Sized d m.now y.now × (length n.old ≡ d * d) × Sized d p.old x.old }
    ensures { Gives (estimate_from d floor (information m.now y.now)) result (estimate x.new p.new) }
{
    mat_solve(m, y, d, x)?;
    mat_inv(m, d, p)?;
    mat_symmetrize(p, d, n)?;
    nearest_psd(n, floor, d, p)?;
    Ok(())
}

// Writes the fields of the track with the state x and the covariance p: the state, then the lower triangle row by row.
// d is x.len(): with length x.now for it the clauses are 38 characters longer, here and in `write_finite`.
#[tactic(auto, using(crate::proofs::Triangle::row_by_row), unfolding(tracks::specs::Layout::fields))]
fn write_fields(x: &[f64], p: &[f64], d: usize, out: &mut [f64])
    requires { HasFields d out.old × Sized d p.now x.now }
    ensures { out.new ≡ fields_of d (estimate x.now p.now) }
{
    out[..d].copy_from_slice(x);
    let mut at = d;
    // Rows of differing length, which are no chunks. By a fold of `at`, what its closure asks and what out becomes stayed
    // open.
    for i in 0..d {
        let next = at + i + 1;
        out[at..next].copy_from_slice(part(p, i * d, i + 1));
        at = next;
    }
}

// The same where all entries of x and of p are finite.
#[tactic(auto, unfolding(crate::specs::Fusion::is_finite))]
pub(crate) fn write_finite(x: &[f64], p: &[f64], d: usize, out: &mut [f64]) -> bool
    requires { HasFields d out.old × Sized d p.now x.now }
    ensures { (result, out.new) ≡ left_by (if_finite d (estimate x.now p.now)) out.old }
{
    if are_finite(x) && are_finite(p) {
        write_fields(x, p, d, out);
        return true;
    }
    false
}
