// Questions 2 and 18 of document 01, as a comparison asks them.
ghost use Rattle.std.specs.Prelude.{◌≡◌, ◌&&◌, ◌*◌, ◌≤◌};
ghost use Rattle.dense.specs.Matrix.{has_length};
ghost use Rattle.compare.specs.Distance.{floor_and_gate};

use dense::shape::{are_matrices, is_vector};
use dense::vector::is_finite;

// Whether mu and x are vectors of n entries, and p_i and p_j n by n matrices.
pub(crate) fn are_tracks(mu: &[f64], x: &[f64], p_i: &[f64], p_j: &[f64], n: usize) -> bool
    requires { n * n ≤ 256 }
    ensures { result ≡ (has_length mu.now n && (has_length x.now n && (has_length p_i.now (n * n) && has_length p_j.now (n * n)))) }
{
    is_vector(mu, n) && is_vector(x, n) && are_matrices(p_i, n, n, p_j, n, n)
}

// Whether the floor is finite and above 0, and the gate finite and not below it.
#[tactic(auto, unfolding(crate::specs::Distance::floor_and_gate))]
pub fn is_floor_and_gate(floor: f64, gate: f64) -> bool
    ensures { result ≡ floor_and_gate floor gate }
{
    is_finite(floor) && 0.0 < floor && is_finite(gate) && 0.0 <= gate
}
