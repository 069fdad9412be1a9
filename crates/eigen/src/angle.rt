// The angle of a rotation, in the source's order of operations.
ghost use Rattle.std.specs.Prelude.{◌≡◌};
ghost use Rattle.kernel.specs.Number.{abs};
ghost use Rattle.eigen.specs.Rotation.{negligible, tangent, rotation};

use crate::Rotation;
use kernel::constants::{FAR_THETA, MIN_POSITIVE, REL_TOL};
use kernel::number::{abs, max, reciprocal_root, sqrt_near};

// Whether apq is so small beside the diagonal that its pair is skipped.
#[tactic(auto, unfolding(crate::specs::Rotation::negligible))]
pub(crate) fn is_negligible(app: f64, apq: f64, aqq: f64) -> bool
    ensures { result ≡ negligible app apq aqq }
{
    let scale = max(max(abs(app), abs(aqq)), MIN_POSITIVE);
    abs(apq) < REL_TOL * scale
}

// The tangent of the angle of theta, whose size is given. An estimate y of one over the root of theta squared and 1 makes it quick.
#[tactic(auto, unfolding(crate::specs::Rotation::tangent))]
fn tangent(theta: f64, size: f64, y: f64) -> f64
    requires { size ≡ abs theta }
    ensures { result ≡ tangent theta }
{
    if size > FAR_THETA {
        return 0.5 / theta;
    }
    let square = theta * theta + 1.0;
    let root = sqrt_near(square, square * y, y);
    if theta >= 0.0 {
        return 1.0 / (size + root);
    }
    -1.0 / (size + root)
}

// The rotation that brings apq to 0. The square of the cosine is half of 1 and of |theta| over the root of theta squared and 1, so
// that the second root is estimated before the first one is known.
#[tactic(auto, unfolding(crate::specs::Rotation::rotation))]
pub(crate) fn rotation(app: f64, apq: f64, aqq: f64) -> Rotation
    ensures { result ≡ rotation app apq aqq }
{
    let theta = 0.5 * (aqq - app) / apq;
    let size = abs(theta);
    let y = reciprocal_root(theta * theta + 1.0);
    let square = 0.5 + 0.5 * size * y;
    let z = reciprocal_root(square);
    let t = tangent(theta, size, y);
    let c = 1.0 / sqrt_near(t * t + 1.0, z, square * z);
    Rotation {
        tangent: t,
        cosine: c,
        sine: t * c,
    }
}
