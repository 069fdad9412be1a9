// The fusion for a caller that knows the lengths: what the project's own crates call, and no user does.
ghost use Rattle.std.specs.Prelude.{◌≡◌, ◌*◌, ◌≤◌};
ghost use Rattle.fusion.specs.Fusion.{fused};
ghost use Rattle.fusion.specs.Private.{ToFuse, left_by};

use crate::information::{both, without_base};
use crate::track::{estimate, write_finite};

// Writes the fusion of ours and theirs over base, where there is one.
#[tactic(auto, using(crate::proofs::Steps::by_told))]
fn fuse_within(
    base: &[f64],
    ours: &[f64],
    theirs: &[f64],
    d: usize,
    floor: f64,
    out: &mut [f64],
) -> bool
    requires few { (d ≤ 16) × (d * d ≤ 256) }
    requires tracks { ToFuse d base.now ours.now theirs.now out.old }
    ensures { (result, out.new) ≡ left_by (fused d floor base.now ours.now theirs.now) out.old }
{
    let mut m = [0.0f64; 256];
    let mut y = [0.0f64; 16];
    let mut n = [0.0f64; 256];
    let mut x = [0.0f64; 16];
    let mut p = [0.0f64; 256];
    let size = d * d;
    let m = &mut m[..size];
    let y = &mut y[..d];
    let n = &mut n[..size];
    let x = &mut x[..d];
    let p = &mut p[..size];
    both(ours, theirs, d, p, n, x, m, y).is_ok()
        && without_base(base, d, p, n, x, m, y).is_ok()
        && estimate(m, y, d, floor, n, x, p).is_ok()
        && write_finite(x, p, d, out)
}

// Writes the fusion of ours and theirs over base, three tracks of dimension d by their fields, to out, where there is
// one.
#[tactic(auto, using(dense::proofs::Tests::square_area, dense::proofs::Tests::side_high))]
pub fn fuse_tracks(
    base: &[f64],
    ours: &[f64],
    theirs: &[f64],
    d: usize,
    floor: f64,
    out: &mut [f64],
) -> bool
    requires { ToFuse d base.now ours.now theirs.now out.old }
    ensures { (result, out.new) ≡ left_by (fused d floor base.now ours.now theirs.now) out.old }
{
    fuse_within(base, ours, theirs, d, floor, out)
}
