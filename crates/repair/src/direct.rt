// Orders 1 and 2, whose eigenpairs are a few numbers: no room to clear.
ghost use Rattle.std.specs.Prelude.{◌≡◌, [], ◌∷◌, length};
ghost use Rattle.kernel.specs.Answer.{through};
ghost use Rattle.dense.specs.Matrix.{matrix};
ghost use Rattle.eigen.specs.Eigen.{eigenpairs};
ghost use Rattle.eigen.specs.Private.{shown_by};
ghost use Rattle.repair.specs.Private.{Mending};
ghost use Rattle.repair.specs.Repair.{rebuilt_entry, repair_of, nearest_psd, after_repair};

use crate::RegularizationReport;
use crate::clip::{raised, report};
use crate::inside::single_rebuilt;
use crate::rebuild::share;
use dense::shape::are_matrices;
use dense::vector::is_finite;
use eigen::Plane;
use eigen::inside::eigenplane;
use kernel::question::Question;

// Question 2, and then the repair of one entry, which is its own eigenvalue.
pub(crate) fn single_repair(
    cov: &[f64],
    floor: f64,
    out: &mut [f64],
) -> Result<RegularizationReport, Question>
    ensures { (result, out.new) ≡ after_repair (nearest_psd cov.now floor 1 out.old) out.old }
{
    if !are_matrices(cov, 1, 1, out, 1, 1) {
        return Err(Question::Length);
    }
    let x = cov[0];
    if !is_finite(x) {
        return Err(Question::FiniteEntries);
    }
    out[0] = single_rebuilt(x, floor);
    Ok(report(&[x], floor))
}

// Writes the matrix with the eigenvalues e and f and the eigenvectors of p.
fn rebuild_plane(p: Plane, e: f64, f: f64, out: &mut [f64])
    requires { length out.old ≡ 4 }
    ensures { out.new ≡ matrix 2 2 (rebuilt_entry (shown_by p).vectors (e ∷ f ∷ []) 2) }
{
    out.copy_from_slice(&[
        0.0 + share(p.vpp, e, p.vpp) + share(p.vpq, f, p.vpq),
        0.0 + share(p.vpp, e, p.vqp) + share(p.vpq, f, p.vqq),
        0.0 + share(p.vqp, e, p.vpp) + share(p.vqq, f, p.vpq),
        0.0 + share(p.vqp, e, p.vqp) + share(p.vqq, f, p.vqq),
    ]);
}

// The repair of cov, 2 by 2, from question 4 on.
pub(crate) fn plane_repair(
    cov: &[f64],
    floor: f64,
    out: &mut [f64],
) -> Result<RegularizationReport, Question>
    requires { Mending 2 cov.now out.old }
    ensures { (result, out.new) ≡ after_repair (through (repair_of floor 2) (eigenpairs cov.now 2)) out.old }
{
    let p = eigenplane(cov[0], cov[1], cov[2], cov[3]);
    if !is_finite(p.app) || !is_finite(p.aqq) {
        return Err(Question::FiniteEigenvalues);
    }
    let report = report(&[p.app, p.aqq], floor);
    rebuild_plane(p, raised(p.app, floor), raised(p.aqq, floor), out);
    Ok(report)
}
