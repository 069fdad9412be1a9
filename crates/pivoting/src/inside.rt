// The distance over the inverse for a caller that knows the lengths: what the project's own crates call, and no user does.
ghost use Rattle.std.specs.Prelude.{◌≡◌, [], ◌∷◌, length};
ghost use Rattle.dense.specs.Matrix.{max_abs};
ghost use Rattle.pivoting.specs.Private.{Under};
ghost use Rattle.pivoting.specs.Solve.{distance};

use crate::Pivot;
use crate::choice::{consider, is_taken};
use crate::distance::distance_within;
use kernel::constants::MIN_SCALE;
use kernel::number::abs;
use kernel::question::Question;

// Questions 5 and 6, and then the quadratic form of x - mu under the inverse of cov, with the room that its order
// needs. It is chosen by a test: arrays have fixed sizes.
pub fn distance(x: &[f64], mu: &[f64], cov: &[f64]) -> Result<f64, Question>
    requires { Under x.now mu.now cov.now }
    ensures { result ≡ distance x.now mu.now cov.now (length x.now) }
{
    if cov.len() <= 16 {
        return distance_within::<16>(x, mu, cov);
    }
    distance_within::<256>(x, mu, cov)
}

// The norm of a row of one entry.
fn single_norm(x: f64) -> f64
    ensures { result ≡ max_abs (x ∷ []) 1 }
{
    let size = abs(x);
    if 0.0 < size {
        return size;
    }
    0.0
}

// The distance of order 1, of three numbers: no loops, and no room to clear.
pub fn single_distance(x: f64, mu: f64, cov: f64) -> Result<f64, Question>
    ensures { result ≡ distance (x ∷ []) (mu ∷ []) (cov ∷ []) 1 }
{
    let norm = single_norm(cov);
    if norm < MIN_SCALE {
        return Err(Question::RowNorm);
    }
    let best = Pivot { ratio: 0.0, row: 0 };
    if !is_taken(consider(best, norm, cov, 0)) {
        return Err(Question::PivotRatio);
    }
    let d = x - mu;
    Ok(0.0 + d * (1.0 / cov) * d)
}
