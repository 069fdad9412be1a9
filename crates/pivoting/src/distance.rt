// The squared distance over the inverse.
ghost use Rattle.std.specs.Prelude.{◌≡◌, ◌≤◌, length};
ghost use Rattle.pivoting.specs.Solve.{distance};
ghost use Rattle.pivoting.specs.Private.{Under};

use crate::solve::inverse;
use kernel::question::Question;
use linalg::inside::distance_with_inv;

// Questions 5 and 6, and then the quadratic form of x - mu under the inverse of cov, with room for an inverse of SIZE
// entries.
#[tactic(auto, using(crate::proofs::Distances::distance_over, crate::proofs::Distances::distance_never))]
pub(crate) fn distance_within<const SIZE: usize>(
    x: &[f64],
    mu: &[f64],
    cov: &[f64],
) -> Result<f64, Question>
    requires { Under x.now mu.now cov.now × (length cov.now ≤ SIZE) × (SIZE ≤ 256) }
    ensures { result ≡ distance x.now mu.now cov.now (length x.now) }
{
    let mut inv = [0.0f64; SIZE];
    let inv = &mut inv[..cov.len()];
    inverse(cov, x.len(), inv)?;
    Ok(distance_with_inv(x, mu, inv))
}
