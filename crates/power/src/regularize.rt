// `tikhonov_with_report` of regularize.rs.
ghost use Rattle.std.specs.Prelude.{◌≡◌};
ghost use Rattle.power.specs.Condition.{tikhonov_with_report, after_damping};

use crate::TikhonovReport;
use crate::inverse::condition;
use kernel::question::Question;
use linalg::regularize::tikhonov;

// cov, n by n, plus alpha times the identity, into out, and the condition numbers before and after.
pub fn tikhonov_with_report(
    cov: &[f64],
    alpha: f64,
    n: usize,
    out: &mut [f64],
) -> Result<TikhonovReport, Question>
    ensures { (result, out.new) ≡ after_damping (tikhonov_with_report cov.now alpha n out.old) out.old }
{
    tikhonov(cov, alpha, n, out)?;
    Ok(TikhonovReport {
        alpha,
        condition_number_before: condition(cov, n),
        condition_number_after: condition(out, n),
    })
}
