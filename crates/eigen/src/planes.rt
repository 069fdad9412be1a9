// Order 2: there is one pair, so that a sweep is one rotation, of seven numbers.
ghost use Rattle.std.specs.Prelude.{◌≡◌, [], ◌∷◌, length};
ghost use Rattle.eigen.specs.Eigen.{begun, tolerance, swept, eigenpairs, after_pairs};
ghost use Rattle.eigen.specs.Private.{plane_state, turned_plane, descended, plane_pairs, Lent};
ghost use Rattle.eigen.specs.Rotation.{rotated};

use crate::angle::{is_negligible, rotation};
use crate::inside::eigenplane;
use crate::sweep::SWEEPS;
use crate::{Plane, Rotation};
use dense::vector::is_finite;
use kernel::constants::{MIN_POSITIVE, REL_TOL};
use kernel::number::max;
use kernel::question::Question;

// The plane of the rows w, x and y, z, made symmetric, with the unit vectors.
#[tactic(auto, using(crate::proofs::Cases::PlaneSteps::plane_begun))]
pub(crate) fn begin(w: f64, x: f64, y: f64, z: f64) -> Plane
    ensures { plane_state result ≡ begun (w ∷ x ∷ y ∷ z ∷ []) 2 }
{
    Plane {
        app: w,
        apq: 0.5 * (x + y),
        aqq: z,
        vpp: 1.0,
        vpq: 0.0,
        vqp: 0.0,
        vqq: 1.0,
    }
}

// What the square of apq has to fall below.
#[tactic(auto, using(crate::proofs::Cases::PlaneSteps::plane_tolerance))]
pub(crate) fn plane_tolerance(s: Plane) -> f64
    ensures { result ≡ tolerance (plane_state s).entries 2 }
{
    let squares = 0.0 + s.app * s.app + s.apq * s.apq + s.apq * s.apq + s.aqq * s.aqq;
    REL_TOL * REL_TOL * max(squares, MIN_POSITIVE)
}

// The plane turned by g.
fn turned_plane(s: Plane, g: Rotation) -> Plane
    ensures { result ≡ turned_plane g s }
{
    Plane {
        app: s.app - g.tangent * s.apq,
        apq: 0.0,
        aqq: s.aqq + g.tangent * s.apq,
        vpp: g.cosine * s.vpp - g.sine * s.vpq,
        vpq: g.sine * s.vpp + g.cosine * s.vpq,
        vqp: g.cosine * s.vqp - g.sine * s.vqq,
        vqq: g.sine * s.vqp + g.cosine * s.vqq,
    }
}

// The plane once its pair is rotated, or skipped.
#[tactic(auto, using(crate::proofs::Cases::PlaneSteps::plane_rotated))]
fn turn(s: Plane) -> Plane
    ensures { plane_state result ≡ rotated 2 0 1 (plane_state s) }
{
    if is_negligible(s.app, s.apq, s.aqq) {
        return s;
    }
    let g = rotation(s.app, s.apq, s.aqq);
    turned_plane(s, g)
}

// Sweeps until the square of apq falls below tol, and 64 times at most.
pub(crate) fn sweep_plane(s: Plane, tol: f64) -> Plane
    ensures { plane_state result ≡ swept 2 tol (plane_state s) }
{
    let mut p = s;
    // k counts the sweeps for the invariant. By try_fold the plane ends as Ok or as Err, and both goals stayed open.
    for k in 0..SWEEPS {
        if 0.0 + p.apq * p.apq < tol {
            return p;
        }
        p = turn(p);
    }
    p
}

// The plane with the greater eigenvalue, and its vector, first.
#[tactic(auto, unfolding(crate::specs::Private::descended))]
pub(crate) fn descend(s: Plane) -> Plane
    ensures { result ≡ descended s }
{
    if s.app < s.aqq {
        return Plane {
            app: s.aqq,
            aqq: s.app,
            vpp: s.vpq,
            vpq: s.vpp,
            vqp: s.vqq,
            vqq: s.vqp,
            ..s
        };
    }
    s
}

// Question 4, and then the eigenpairs that a plane shows.
#[tactic(auto, unfolding(crate::specs::Private::plane_pairs))]
fn write_plane(s: Plane, values: &mut [f64], vectors: &mut [f64]) -> Result<(), Question>
    requires { (length values.old ≡ 2) × (length vectors.old ≡ 4) }
    ensures { (result, values.new, vectors.new) ≡ after_pairs (plane_pairs s) values.old vectors.old }
{
    if !is_finite(s.app) || !is_finite(s.aqq) {
        return Err(Question::FiniteEigenvalues);
    }
    values.copy_from_slice(&[s.app, s.aqq]);
    vectors.copy_from_slice(&[s.vpp, s.vpq, s.vqp, s.vqq]);
    Ok(())
}

// Questions 1 and 2 are met: question 4, and then the eigenpairs of a, 2 by 2.
pub(crate) fn plane_eigenpairs(
    a: &[f64],
    values: &mut [f64],
    vectors: &mut [f64],
) -> Result<(), Question>
    requires { Lent 2 a.now values.old vectors.old }
    ensures { (result, values.new, vectors.new) ≡ after_pairs (eigenpairs a.now 2) values.old vectors.old }
{
    let p = eigenplane(a[0], a[1], a[2], a[3]);
    write_plane(p, values, vectors)
}
