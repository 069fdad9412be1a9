// A repair for a caller that knows the lengths: what the project's own crates call, and no user does.
ghost use Rattle.std.specs.Prelude.{◌≡◌, [], ◌∷◌, ◌*◌, ◌≤◌};
ghost use Rattle.kernel.specs.Answer.{through};
ghost use Rattle.eigen.specs.Eigen.{eigenpairs};
ghost use Rattle.repair.specs.Private.{Mending, single_rebuilt};
ghost use Rattle.repair.specs.Repair.{repair_of, repair, repair_answer, after_repair};

use crate::RegularizationReport;
use crate::clip::{raise, raised, report};
use crate::direct::plane_repair;
use crate::rebuild::{rebuild, share};
use dense::vector::{are_finite, is_finite};
use eigen::inside::eigenpairs_in;
use kernel::question::Question;

// The repair of cov, n by n, from question 4 on, with room for orders to N, whose matrices have SIZE entries.
fn repair_within<const N: usize, const SIZE: usize>(
    cov: &[f64],
    floor: f64,
    n: usize,
    out: &mut [f64],
) -> Result<RegularizationReport, Question>
    requires { Mending n cov.now out.old × (n ≤ N) × (n * n ≤ SIZE) × (N ≤ 16) × (SIZE ≤ 256) }
    ensures { (result, out.new) ≡ after_repair (through (repair_of floor n) (eigenpairs cov.now n)) out.old }
{
    let mut values_room = [0.0f64; N];
    let mut vectors_room = [0.0f64; SIZE];
    let mut m = [0.0f64; SIZE];
    let mut w = [0.0f64; SIZE];
    let size = n * n;
    let e = &mut values_room[..n];
    let v = &mut vectors_room[..size];
    eigenpairs_in(cov, n, &mut m[..size], &mut w[..size], e, v)?;
    let report = report(e, floor);
    raise(e, floor);
    rebuild(v, e, out);
    Ok(report)
}

// The repair of cov, n by n, into out, from question 3 on, with the room that the order needs.
// It is chosen by tests: arrays have fixed sizes.
#[tactic(auto, using(dense::proofs::Matrices::small_size, dense::proofs::Matrices::full_size, dense::proofs::Tests::side_high))]
pub fn repair(
    cov: &[f64],
    floor: f64,
    n: usize,
    out: &mut [f64],
) -> Result<RegularizationReport, Question>
    requires { Mending n cov.now out.old }
    ensures { (result, out.new) ≡ after_repair (repair cov.now floor n) out.old }
{
    if !are_finite(cov) {
        return Err(Question::FiniteEntries);
    }
    if n == 2 {
        return plane_repair(cov, floor, out);
    }
    if n <= 4 {
        return repair_within::<4, 16>(cov, floor, n, out);
    }
    repair_within::<16, 256>(cov, floor, n, out)
}

// What the repair of a matrix of one entry x answers.
pub fn single_answer(x: f64, floor: f64) -> Result<RegularizationReport, Question>
    ensures { result ≡ repair_answer (repair (x ∷ []) floor 1) }
{
    if !is_finite(x) {
        return Err(Question::FiniteEntries);
    }
    Ok(report(&[x], floor))
}

// The entry of that repair.
pub fn single_rebuilt(x: f64, floor: f64) -> f64
    ensures { result ≡ single_rebuilt floor x }
{
    0.0 + share(1.0, raised(x, floor), 1.0)
}
