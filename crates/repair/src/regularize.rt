// `nearest_psd` and `eigenvalue_floor` of linalg/regularize.rs.
ghost use Rattle.std.specs.Prelude.{◌≡◌};
ghost use Rattle.repair.specs.Repair.{nearest_psd, after_repair};

use crate::RegularizationReport;
use crate::direct::single_repair;
use crate::inside::repair;
use dense::questions::ask_shape;
use dense::shape::{are_matrices, is_side};
use kernel::question::Question;

// The questions, and then the repair, for callers of any order.
#[tactic(auto, using(dense::proofs::Tests::square_area, dense::proofs::Tests::side_high), unfolding(dense::specs::Matrix::has_length))]
fn asked_repair(
    cov: &[f64],
    floor: f64,
    n: usize,
    out: &mut [f64],
) -> Result<RegularizationReport, Question>
    ensures { (result, out.new) ≡ after_repair (nearest_psd cov.now floor n out.old) out.old }
{
    ask_shape(is_side(n), || are_matrices(cov, n, n, out, n, n))?;
    repair(cov, floor, n, out)
}

// The matrix nearest to cov, n by n, whose eigenvalues are not below min_eig, into out. One entry is repaired here, and
// where the call is made, since that is little code: so no report goes through memory.
#[inline(always)]
pub fn nearest_psd(
    cov: &[f64],
    min_eig: f64,
    n: usize,
    out: &mut [f64],
) -> Result<RegularizationReport, Question>
    ensures { (result, out.new) ≡ after_repair (nearest_psd cov.now min_eig n out.old) out.old }
{
    if n == 1 {
        return single_repair(cov, min_eig, out);
    }
    asked_repair(cov, min_eig, n, out)
}

// The same, by the name that says what is wanted of the spectrum.
pub fn eigenvalue_floor(
    cov: &[f64],
    min_eig: f64,
    n: usize,
    out: &mut [f64],
) -> Result<RegularizationReport, Question>
    ensures { (result, out.new) ≡ after_repair (nearest_psd cov.now min_eig n out.old) out.old }
{
    nearest_psd(cov, min_eig, n, out)
}
