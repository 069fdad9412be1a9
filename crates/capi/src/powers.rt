// Power iteration and conditioning.
#![tactic(auto, using(crate::proofs::Laws::told_answers, crate::proofs::Conditioned::eigenpair_tells), unfolding(crate::specs::Told::Tells))]

ghost use Rattle.std.specs.Prelude.{◌≡◌};
ghost use Rattle.power.specs.Power as Power;
ghost use Rattle.power.specs.Condition as Condition;
ghost use Rattle.capi.specs.Told.{Tells};
ghost use Rattle.capi.specs.Powers.{told_damping};

use crate::told::{enter, refused};
use kernel::question::Question;
use power::{TikhonovReport, generic, regularize};

// The eigenvalue of a, n by n, that is greatest in size, into lambda, and its vector into v.
#[unsafe(no_mangle)]
pub extern "C" fn pel_mat_eigenvector_max(
    a: &[f64],
    n: usize,
    max_iter: u32,
    tol: f64,
    v: &mut [f64],
    lambda: &mut f64,
) -> u32
    ensures { Tells (Power.mat_eigenvector_max a.now n max_iter tol v.old)
        (Power.eigenpair v.old lambda.old) result (Power.eigenpair v.new lambda.new) }
{
    enter(generic::mat_eigenvector_max(a, n, max_iter, tol, v), lambda)
}

// The largest singular value of a, n by n, into out.
#[unsafe(no_mangle)]
pub extern "C" fn pel_mat_largest_singular_value(
    a: &[f64],
    n: usize,
    max_iter: u32,
    tol: f64,
    out: &mut f64,
) -> u32
    ensures { Tells (Power.mat_largest_singular_value a.now n max_iter tol) out.old result out.new }
{
    enter(
        generic::mat_largest_singular_value(a, n, max_iter, tol),
        out,
    )
}

// The condition number of a, n by n, into out.
#[unsafe(no_mangle)]
pub extern "C" fn pel_condition_number(a: &[f64], n: usize, out: &mut f64) -> u32
    ensures { Tells (Condition.condition_number a.now n) out.old result out.new }
{
    enter(generic::condition_number(a, n), out)
}

// The code of an answer, and its condition numbers into the two places, as `enter_read` does.
fn enter_damping(answer: Result<TikhonovReport, Question>, before: &mut f64, after: &mut f64) -> u32
    ensures { (result, (before.new, after.new)) ≡ told_damping answer before.old after.old }
{
    match answer {
        Ok(report) => {
            *before = report.condition_number_before;
            *after = report.condition_number_after;
            0
        }
        Err(question) => refused(question),
    }
}

// cov, n by n, plus alpha times the identity, into out, and the condition numbers before and after.
#[unsafe(no_mangle)]
pub extern "C" fn pel_tikhonov_with_report(
    cov: &[f64],
    alpha: f64,
    n: usize,
    out: &mut [f64],
    before: &mut f64,
    after: &mut f64,
) -> u32
    ensures after_after { (result, (before.new, after.new))
        ≡ told_damping (Condition.after_damping (Condition.tikhonov_with_report cov.now alpha n out.old) out.old).0 before.old after.old }
    ensures out_after { out.new ≡ (Condition.after_damping (Condition.tikhonov_with_report cov.now alpha n out.old) out.old).1 }
{
    enter_damping(
        regularize::tikhonov_with_report(cov, alpha, n, out),
        before,
        after,
    )
}
