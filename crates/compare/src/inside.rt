// The comparison of two tracks, and the covariance of one, for a caller that knows the lengths: what the project's own crates call, and no user does.
ghost use Rattle.std.specs.Prelude.{◌≡◌, [], ◌∷◌, ◌*◌, ◌≤◌, length};
ghost use Rattle.pivoting.specs.Private.{Under};
ghost use Rattle.pivoting.specs.Solve.{distance};
ghost use Rattle.compare.specs.Distance.{joint_covariance, compared_with_report};
ghost use Rattle.compare.specs.Fields.{track_covariance};
ghost use Rattle.compare.specs.Private.{TwoTracks, CovarianceRoom, after_repaired};

use crate::ComparisonReport;
use crate::fields::covariance_entry;
use crate::gate::comparison_of;
use dense::fill::{fill, fill_matrix};
use kernel::question::Question;
use pivoting::inside::{distance, single_distance};
use repair::RegularizationReport;
use repair::inside::{repair, single_answer, single_rebuilt};

// What two tracks are compared by.
#[derive(Clone, Copy)]
struct FloorAndGate {
    floor: f64,
    gate: f64,
}

// Writes the sum of p and q, n by n.
fn joint_covariance(p: &[f64], q: &[f64], n: usize, y: &mut [f64])
    requires { (length p.now ≡ n * n) × (length q.now ≡ n * n) × (length y.old ≡ n * n) }
    ensures { y.new ≡ joint_covariance p.now q.now n }
{
    fill(|k| p[k] + q[k], y);
}

// The squared distance under the matrix that a repair wrote, where it did not refuse.
fn distance_after(
    repaired: Result<RegularizationReport, Question>,
    mu: &[f64],
    x: &[f64],
    cov: &[f64],
) -> Result<f64, Question>
    requires { Under x.now mu.now cov.now }
    ensures { result ≡ after_repaired repaired (distance x.now mu.now cov.now (length x.now)) }
{
    repaired?;
    distance(x, mu, cov)
}

// The same of dimension 1: the distance of three numbers, which needs no room.
fn single_distance_after(
    repaired: Result<RegularizationReport, Question>,
    mu: f64,
    x: f64,
    cov: f64,
) -> Result<f64, Question>
    ensures { result ≡ after_repaired repaired (distance (x ∷ []) (mu ∷ []) (cov ∷ []) 1) }
{
    repaired?;
    single_distance(x, mu, cov)
}

// The comparison of the tracks with the states mu and x and the covariances p and q, n by n. The slices s and r are room
// for the joint covariance and its repair. Here and in those that call it, n is mu.len(), in the order of the call.
#[tactic(auto, using(dense::proofs::Tests::side_high))]
fn compared_in(
    mu: &[f64],
    x: &[f64],
    p: &[f64],
    q: &[f64],
    n: usize,
    terms: FloorAndGate,
    s: &mut [f64],
    r: &mut [f64],
) -> ComparisonReport
    requires { TwoTracks mu.now x.now p.now q.now n × (length s.old ≡ n * n) × (length r.old ≡ n * n) }
    ensures { result ≡ compared_with_report mu.now x.now p.now q.now n terms.floor terms.gate }
{
    joint_covariance(p, q, n, s);
    let repair = repair(s, terms.floor, n, r);
    let answer = distance_after(repair, mu, x, r);
    ComparisonReport {
        comparison: comparison_of(answer, terms.gate),
        repair,
    }
}

// The same with room for so many entries of each matrix.
fn compared_within<const SIZE: usize>(
    mu: &[f64],
    x: &[f64],
    p: &[f64],
    q: &[f64],
    n: usize,
    terms: FloorAndGate,
) -> ComparisonReport
    requires { TwoTracks mu.now x.now p.now q.now n × (n * n ≤ SIZE) × (SIZE ≤ 256) }
    ensures { result ≡ compared_with_report mu.now x.now p.now q.now n terms.floor terms.gate }
{
    let mut s = [0.0f64; SIZE];
    let mut r = [0.0f64; SIZE];
    let size = n * n;
    compared_in(mu, x, p, q, n, terms, &mut s[..size], &mut r[..size])
}

// The same of dimension 1, of four numbers: no loops, and no room to clear.
fn single(mu: f64, x: f64, p: f64, q: f64, terms: FloorAndGate) -> ComparisonReport
    ensures { result ≡ compared_with_report (mu ∷ []) (x ∷ []) (p ∷ []) (q ∷ []) 1 terms.floor terms.gate }
{
    let sum = p + q;
    let repair = single_answer(sum, terms.floor);
    let answer = single_distance_after(repair, mu, x, single_rebuilt(sum, terms.floor));
    ComparisonReport {
        comparison: comparison_of(answer, terms.gate),
        repair,
    }
}

// The same with the room that the dimension needs. It is chosen by tests: arrays have fixed sizes.
#[tactic(auto, using(dense::proofs::Tests::square_area, dense::proofs::Matrices::small_size))]
pub fn compare_tracks(
    mu: &[f64],
    x: &[f64],
    p_i: &[f64],
    p_j: &[f64],
    n: usize,
    floor: f64,
    gate: f64,
) -> ComparisonReport
    requires { TwoTracks mu.now x.now p_i.now p_j.now n }
    ensures { result ≡ compared_with_report mu.now x.now p_i.now p_j.now n floor gate }
{
    let terms = FloorAndGate { floor, gate };
    if n == 1 {
        return single(mu[0], x[0], p_i[0], p_j[0], terms);
    }
    if n <= 4 {
        return compared_within::<16>(mu, x, p_i, p_j, n, terms);
    }
    compared_within::<256>(mu, x, p_i, p_j, n, terms)
}

// Writes the covariance of the track of dimension d whose fields stand first in v, as a whole matrix.
#[tactic(auto, unfolding(crate::specs::Fields::track_covariance))]
pub fn track_covariance(v: &[f64], d: usize, out: &mut [f64])
    requires { CovarianceRoom d v.now out.old }
    ensures { out.new ≡ track_covariance d v.now }
{
    fill_matrix(|i, j| covariance_entry(v, d, i, j), d, d, out);
}
