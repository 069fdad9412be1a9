// What tracks tell: the inverse of a covariance, and that times the state; for two tracks added, and for a third taken
// away.
ghost use Rattle.std.specs.Prelude.{◌≡◌, ◌*◌, length};
ghost use Rattle.fusion.specs.Fusion.{information_of};
ghost use Rattle.fusion.specs.Private.{HasFields, Sized, Rooms, information, sums, differences, both_of, left_without, Gives};

use compare::inside::track_covariance;
use dense::fill::combine;
use kernel::question::Question;
use linalg::generic::mat_vec_mul;
use pivoting::generic::mat_inv;

// Adds x to y, entry by entry.
fn add(x: &[f64], y: &mut [f64])
    requires { length x.now ≡ length y.old }
    ensures { y.new ≡ sums (length y.old) y.old x.now }
{
    combine(|u, v| u + v, x, y);
}

// Takes x from y, entry by entry. It differs from `add` by the closure alone.
fn subtract(x: &[f64], y: &mut [f64])
    requires { length x.now ≡ length y.old }
    ensures { y.new ≡ differences (length y.old) y.old x.now }
{
    combine(|u, v| u - v, x, y);
}

// Writes what the track of dimension d with the fields v tells to m and y, where it tells something. The slice p is
// room for its covariance.
fn information(
    v: &[f64],
    d: usize,
    p: &mut [f64],
    m: &mut [f64],
    y: &mut [f64],
) -> Result<(), Question>
    requires { HasFields d v.now × (length p.old ≡ d * d) × Sized d m.old y.old }
    ensures { Gives (information_of d v.now) result (information m.new y.new) }
{
    track_covariance(v, d, p);
    mat_inv(p, d, m)?;
    mat_vec_mul(m, &v[..d], d, y)
}

// Writes what ours and theirs tell, added. The slices p, n and z are room for a covariance and for what theirs tells.
pub(crate) fn both(
    ours: &[f64],
    theirs: &[f64],
    d: usize,
    p: &mut [f64],
    n: &mut [f64],
    z: &mut [f64],
    m: &mut [f64],
    y: &mut [f64],
) -> Result<(), Question>
    requires { HasFields d ours.now × HasFields d theirs.now × Rooms d p.old n.old z.old m.old y.old }
    ensures { Gives (both_of d ours.now theirs.now) result (information m.new y.new) }
{
    information(ours, d, p, m, y)?;
    information(theirs, d, p, n, z)?;
    add(n, m);
    add(z, y);
    Ok(())
}

// Takes away what base tells. The slices p, n and z are room as above.
pub(crate) fn without_base(
    base: &[f64],
    d: usize,
    p: &mut [f64],
    n: &mut [f64],
    z: &mut [f64],
    m: &mut [f64],
    y: &mut [f64],
) -> Result<(), Question>
    requires { HasFields d base.now × Rooms d p.old n.old z.old m.old y.old }
    ensures { Gives (left_without d (information m.old y.old) base.now) result (information m.new y.new) }
{
    information(base, d, p, n, z)?;
    subtract(n, m);
    subtract(z, y);
    Ok(())
}
